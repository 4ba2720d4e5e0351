// The head: the clock and the next grant number, each read and set by its own name, as a record's fields are.
ghost use Rattle.std.specs.Prelude.{◌≡◌};
ghost use Rattle.ledger.specs.Fields.{clock, with_clock, next_number, with_next};
ghost use Rattle.ledger.specs.Checks.{check_time};

use super::field::Head;
use super::limit::Clock;
use octets::number::Number;

#[tactic(auto, using(octets::proofs::Spans::field_read))]
pub fn clock(l: &[u8]) -> u64
    ensures { result ≡ clock l.now }
{
    u64::read(Head::CLOCK.of(l))
}

#[tactic(auto, using(octets::proofs::Spans::field_read))]
pub fn next_number(l: &[u8]) -> u64
    ensures { result ≡ next_number l.now }
{
    u64::read(Head::NEXT.of(l))
}

pub fn set_clock(l: &mut [u8], time: u64)
    ensures { l.new ≡ with_clock time l.old }
{
    Head::CLOCK.put(l, &time.bytes());
}

pub fn set_next(l: &mut [u8], number: u64)
    ensures { l.new ≡ with_next number l.old }
{
    Head::NEXT.put(l, &number.bytes());
}

// An enum: document 01 has each check's answer taken apart by let else, and the case says what was found.
#[derive(Clone, Copy)]
pub enum Timing {
    Timely,
    Untimely,
}

// Check 2.
#[tactic(auto, unfolding(crate::specs::Checks::check_time, crate::specs::Checks::untimely))]
pub fn check(l: &[u8], time: u64) -> Timing
    ensures { result ≡ check_time l.now time }
{
    if time < clock(l) || Clock::LIMIT <= time {
        return Timing::Untimely;
    }
    Timing::Timely
}
