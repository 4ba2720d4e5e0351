// Lifetimes and limits, each a constant of the kind it belongs to; a function beside it, public with a promise of its own, ties it to its
// definition.
ghost use Rattle.std.specs.Prelude.{◌≡◌};
ghost use Rattle.ledger.specs.Limits.{code_lifetime, token_lifetime, clock_limit, expiry_limit, head_size, record_size, records_least, records_most, last_number};

#[derive(Clone, Copy)]
pub struct Code {}

impl Code {
    pub const LIFETIME: u64 = 60;

    pub fn lifetime() -> u64
        ensures { result ≡ code_lifetime }
    {
        Code::LIFETIME
    }
}

#[derive(Clone, Copy)]
pub struct Token {}

impl Token {
    pub const LIFETIME: u64 = 300;

    pub fn lifetime() -> u64
        ensures { result ≡ token_lifetime }
    {
        Token::LIFETIME
    }
}

#[derive(Clone, Copy)]
pub struct Clock {}

impl Clock {
    pub const LIMIT: u64 = 0x100_0000_0000;

    pub fn limit() -> u64
        ensures { result ≡ clock_limit }
    {
        Clock::LIMIT
    }
}

#[derive(Clone, Copy)]
pub struct Expiry {}

impl Expiry {
    pub const LIMIT: u64 = 0x200_0000_0000;

    pub fn limit() -> u64
        ensures { result ≡ expiry_limit }
    {
        Expiry::LIMIT
    }
}

#[derive(Clone, Copy)]
pub struct Grant {}

impl Grant {
    pub const LAST: u64 = 0xffff_ffff_ffff_ffff;

    pub fn last() -> u64
        ensures { result ≡ last_number }
    {
        Grant::LAST
    }
}

#[derive(Clone, Copy)]
pub struct Ledger {}

impl Ledger {
    pub const HEAD: usize = 32;

    pub const RECORD: usize = 256;

    // A record has two to this number of bytes.
    pub const RECORD_BITS: usize = 8;

    pub const LEAST: usize = 1;

    pub const MOST: usize = 200;

    pub fn head() -> usize
        ensures { result ≡ head_size }
    {
        Ledger::HEAD
    }

    pub fn record() -> usize
        ensures { result ≡ record_size }
    {
        Ledger::RECORD
    }

    pub fn least() -> usize
        ensures { result ≡ records_least }
    {
        Ledger::LEAST
    }

    pub fn most() -> usize
        ensures { result ≡ records_most }
    {
        Ledger::MOST
    }
}
