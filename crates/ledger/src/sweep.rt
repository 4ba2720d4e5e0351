// Freeing the expired records.
ghost use Rattle.std.specs.Prelude.{◌≡◌, ◌<◌, ◌&&◌};
ghost use Rattle.ledger.specs.Fields.{rec, slots, with_record, used};
ghost use Rattle.ledger.specs.Checks.{expired};
ghost use Rattle.ledger.specs.Sweep.{swept_record, swept, due, freed_of, freed};

use super::limit::Ledger;
use super::record::{address, at, expiry, records, slots};
use super::state::{State, is_in};
use octets::part::clear;

#[derive(Clone, Copy)]
pub struct Freed {
    pub pushed: usize,
    pub consented: usize,
    pub redeemed: usize,
}

fn is_due(r: &[u8], time: u64) -> bool
    ensures { result ≡ (used r.now && expired time r.now) }
{
    !is_in(r, State::Free) && expiry(r) <= time
}

// Frees record k if it is expired. That k is a place of the ledger lent is no fact that a type of places could hold.
fn sweep_at(l: &mut [u8], k: usize, time: u64)
    requires { k < slots l.old }
    ensures { l.new ≡ with_record l.old k (swept_record time (rec l.old k)) }
{
    if is_due(at(l, k), time) {
        let a = address(k);
        clear(&mut l[a..a + Ledger::RECORD]);
    }
}

// Whether the record is of this kind and expired: with is_due above a definition each.
#[tactic(auto, unfolding(crate::specs::Sweep::due))]
fn due(r: &[u8], s: State, time: u64) -> bool
    ensures { result ≡ due s time r.now }
{
    is_in(r, s) && expiry(r) <= time
}

fn freed_of(l: &[u8], s: State, time: u64) -> usize
    ensures { result ≡ freed_of s time l.now }
{
    records(l).iter().filter(|r| due(*r, s, time)).count()
}

pub fn sweep(l: &mut [u8], time: u64) -> Freed
    ensures { (result ≡ freed time l.old) × (l.new ≡ swept time l.old) }
{
    let freed = Freed {
        pushed: freed_of(l, State::Pushed, time),
        consented: freed_of(l, State::Consented, time),
        redeemed: freed_of(l, State::Redeemed, time),
    };
    // By place: of a slice lent on in mutable chunks std does not say what it ends as.
    for k in 0..slots(l) {
        sweep_at(l, k, time);
    }
    freed
}
