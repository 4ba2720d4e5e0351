// Soundness: check 1, the length and the soundness of a ledger (document 01, section "Ledger"), by record and by pair of records.
// It rests on ledger, forms and octets; every call of the desk begins with it. Both public functions take any slice.
#![tactic(auto)]

mod pool;
mod record;

ghost use Rattle.std.specs.Prelude.{◌≡◌};
ghost use Rattle.octets.specs.Lists.{every};
ghost use Rattle.ledger.specs.Sound.{sized, head_sound, record_sound};
ghost use Rattle.ledger.specs.Checks.{check_size, check_sound};

use ledger::clock::{clock, next_number};
use ledger::field::Head;
use ledger::limit::{Clock, Ledger};
use ledger::record::{Record, records};
use ledger::sound::{Size, Soundness};
use octets::part::is_zero;
use pool::{grants_apart, own_apart, values_apart};
use record::is_record_sound;

#[tactic(auto, unfolding(ledger::specs::Sound::sized))]
fn is_sized(l: &[u8]) -> bool
    ensures { result ≡ sized l.now }
{
    let n = l.len();
    let least = Ledger::HEAD + Ledger::LEAST * Ledger::RECORD;
    let most = Ledger::HEAD + Ledger::MOST * Ledger::RECORD;
    (least..=most).contains(&n) && (n - Ledger::HEAD) % Ledger::RECORD == 0
}

// The length alone, for a buffer whose old content is ignored.
#[tactic(auto, unfolding(ledger::specs::Checks::check_size))]
pub fn check_size(l: &[u8]) -> Size
    ensures { result ≡ check_size l.now }
{
    if is_sized(l) {
        Size::Right
    } else {
        Size::Wrong
    }
}

#[tactic(auto, unfolding(ledger::specs::Sound::head_sound))]
fn is_head_sound(l: &[u8]) -> bool
    ensures { result ≡ head_sound l.now }
{
    clock(l) < Clock::LIMIT && 1 <= next_number(l) && is_zero(Head::ZERO.of(l))
}

fn are_records_sound(records: &[Record], next: u64) -> bool
    ensures { result ≡ every (record_sound next) records.now }
{
    records.iter().all(|r| is_record_sound(r, next))
}

#[tactic(auto, unfolding(ledger::specs::Checks::check_sound, ledger::specs::Sound::sound))]
pub fn check(l: &[u8]) -> Soundness
    ensures { result ≡ check_sound l.now }
{
    let records = records(l);
    if is_sized(l)
        && is_head_sound(l)
        && are_records_sound(records, next_number(l))
        && own_apart(records)
        && grants_apart(records)
        && values_apart(records)
    {
        Soundness::Sound
    } else {
        Soundness::Unsound
    }
}
