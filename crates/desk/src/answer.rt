// The answers, and the rows of the table "Numbers returned", each with its number.
ghost use Rattle.std.specs.Prelude.{◌≡◌};
ghost use Rattle.desk.specs.Answers.{number_of, answer_of, answer_no, refused, decided, undecided, swept_of, unswept, introspected, untold};

use ledger::record::{expiry, grant, holder, scope};
use ledger::sweep::Freed;

#[derive(Clone, Copy)]
pub enum Refusal {
    LedgerUnsound = 1,
    TimeWrong = 2,
    TableUnsound = 3,
    ClientUnknown = 4,
    IllFormed = 5,
    ScopeRefused = 6,
    FreshTaken = 7,
    LedgerFull = 8,
    NumbersSpent = 9,
    NoReference = 10,
    RecordExpired = 11,
    NoHolder = 12,
    NoKey = 13,
    NoCode = 14,
    CodeRedeemed = 15,
    VerifierDiffers = 16,
    NoToken = 17,
    KeyDiffers = 18,
    HolderDiffers = 19,
    OutputShort = 20,
}

impl From<Refusal> for u8 {
    ghost from_gives = { λ why number. number ≡ number_of why };

    fn from(why: Refusal) -> u8 {
        why as u8
    }
}

// The numbers of the answers, here and below, stay numbers: the table, demands 1 to 3 and the C interface have each answer as a number with values beside it,
// zeros where it is refused. The constructors stand on the types of answers, as document 01 wants them: of a record, of what was freed, refused.
#[derive(Clone, Copy)]
pub struct Answer {
    pub number: u8,
    pub grant: u64,
    pub holder: u64,
    pub scope: u32,
    pub expiry: u64,
}

impl Answer {
    pub const DONE: u8 = 0;

    // As the record has it.
    pub fn of(r: &[u8]) -> Answer
        ensures { result ≡ answer_of r.now }
    {
        Answer {
            number: Answer::DONE,
            grant: grant(r),
            holder: holder(r),
            scope: scope(r),
            expiry: expiry(r),
        }
    }

    // After a no.
    pub fn no(grant: u64, holder: u64) -> Answer
        ensures { result ≡ answer_no grant holder }
    {
        Answer {
            number: Answer::DONE,
            grant,
            holder,
            scope: 0,
            expiry: 0,
        }
    }

    pub fn refused(why: Refusal) -> Answer
        ensures { result ≡ refused why }
    {
        Answer {
            number: u8::from(why),
            grant: 0,
            holder: 0,
            scope: 0,
            expiry: 0,
        }
    }
}

#[derive(Clone, Copy)]
pub struct Decided {
    pub answer: Answer,
    pub length: u8,
}

impl Decided {
    pub fn with(answer: Answer, length: u8) -> Decided
        ensures { result ≡ decided answer length }
    {
        Decided { answer, length }
    }

    pub fn refused(why: Refusal) -> Decided
        ensures { result ≡ undecided why }
    {
        Decided {
            answer: Answer::refused(why),
            length: 0,
        }
    }
}

#[derive(Clone, Copy)]
pub struct Swept {
    pub number: u8,
    pub pushed: usize,
    pub consented: usize,
    pub redeemed: usize,
}

impl Swept {
    pub fn of(f: Freed) -> Swept
        ensures { result ≡ swept_of f }
    {
        Swept {
            number: Answer::DONE,
            pushed: f.pushed,
            consented: f.consented,
            redeemed: f.redeemed,
        }
    }

    pub fn refused(why: Refusal) -> Swept
        ensures { result ≡ unswept why }
    {
        Swept {
            number: u8::from(why),
            pushed: 0,
            consented: 0,
            redeemed: 0,
        }
    }
}

#[derive(Clone, Copy)]
pub struct Introspected {
    pub number: u8,
    pub length: usize,
}

impl Introspected {
    pub fn with(length: usize) -> Introspected
        ensures { result ≡ introspected length }
    {
        Introspected {
            number: Answer::DONE,
            length,
        }
    }

    pub fn refused(why: Refusal) -> Introspected
        ensures { result ≡ untold why }
    {
        Introspected {
            number: u8::from(why),
            length: 0,
        }
    }
}
