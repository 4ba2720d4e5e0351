// Which release the archive is, and which interface it has: what a caller that was compiled with another header has to know.
#[derive(Clone, Copy)]
pub struct Version {}

impl Version {
    pub const NUMBER: u32 = 1000;
}

#[derive(Clone, Copy)]
pub struct Interface {}

impl Interface {
    pub const NUMBER: u32 = 1;
}
