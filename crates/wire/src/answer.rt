// The bytes of an answer.
ghost use Rattle.std.specs.Prelude.{◌≡◌};
ghost use Rattle.wire.specs.Answers.{answer_size, answer_most, answer_bytes};

use desk::answer::Answer;
use octets::number::Number;
use octets::part::put;

#[derive(Clone, Copy)]
pub struct Said {}

impl Said {
    pub const SIZE: usize = 29;

    pub const MOST: usize = 94;

    pub const NO_FRAME: u8 = 0xff;

    const GRANT: usize = 1;

    const HOLDER: usize = 9;

    const SCOPE: usize = 17;

    const EXPIRY: usize = 21;

    // A function to each constant: public, with a promise of its own (docs/OUTCOMES.md), which ties it to its definition.
    pub fn size() -> usize
        ensures { result ≡ answer_size }
    {
        Said::SIZE
    }

    pub fn most() -> usize
        ensures { result ≡ answer_most }
    {
        Said::MOST
    }
}

pub fn bytes(a: Answer) -> [u8; Said::SIZE]
    ensures { result ≡ answer_bytes a }
{
    let mut out = [0u8; Said::SIZE];
    put(&mut out, 0, &[a.number]);
    put(&mut out, Said::GRANT, &a.grant.bytes());
    put(&mut out, Said::HOLDER, &a.holder.bytes());
    put(&mut out, Said::SCOPE, &a.scope.bytes());
    put(&mut out, Said::EXPIRY, &a.expiry.bytes());
    out
}
