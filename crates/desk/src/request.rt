// What each call is asked beside the ledger, the time and the client table, lent: the fields of its sentence in document 01, in its order.
#[derive(Clone, Copy)]
pub struct PushRequest<'a> {
    pub client: &'a [u8; 16],
    pub key: &'a [u8; 32],
    pub scope: u32,
    pub challenge: &'a [u8],
    pub redirect: &'a [u8],
    pub fresh: &'a [u8; 32],
}

#[derive(Clone, Copy)]
pub struct DecideRequest<'a> {
    pub reference: &'a [u8; 32],
    pub client: &'a [u8; 16],
    pub yes: bool,
    pub holder: u64,
    pub fresh: &'a [u8; 32],
}

#[derive(Clone, Copy)]
pub struct TokenRequest<'a> {
    pub client: &'a [u8; 16],
    pub key: &'a [u8; 32],
    pub presented: &'a [u8; 32],
    pub code: &'a [u8; 32],
    pub verifier: &'a [u8],
    pub fresh: &'a [u8; 32],
}

#[derive(Clone, Copy)]
pub struct ResourceRequest<'a> {
    pub token: &'a [u8; 32],
    pub presented: &'a [u8; 32],
    pub scope: u32,
    pub holder: u64,
}
