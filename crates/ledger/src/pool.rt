// The pool of values and tokens: whether a record holds a value, and what check 7 answers, whether a value may enter.
ghost use Rattle.std.specs.Prelude.{◌≡◌};
ghost use Rattle.ledger.specs.Sound.{holds};

use super::record::{token, value};
use octets::part::{is_zero, same};

// An enum: document 01 has each check's answer taken apart by let else, and the case says what was found.
#[derive(Clone, Copy)]
pub enum Value {
    New,
    Taken,
}

// Whether the record holds v, as its value or as its token.
#[tactic(auto, unfolding(crate::specs::Sound::holds))]
pub fn holds(v: &[u8], r: &[u8]) -> bool
    ensures { result ≡ holds v.now r.now }
{
    !is_zero(v) && (same(v, value(r)) || same(v, token(r)))
}
