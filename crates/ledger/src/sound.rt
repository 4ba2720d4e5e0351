// What check 1 answers: whether a ledger is sound; and, for a buffer whose old content is ignored, whether its length is right.
// An enum: document 01 has each check's answer taken apart by let else, and the case says what was found.
#[derive(Clone, Copy)]
pub enum Soundness {
    Sound,
    Unsound,
}

// An enum: document 01 has each check's answer taken apart by let else, and the case says what was found.
#[derive(Clone, Copy)]
pub enum Size {
    Right,
    Wrong,
}
