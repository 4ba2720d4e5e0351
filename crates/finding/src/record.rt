// Finding a record: the first, in ledger order, that a call asks for.
ghost use Rattle.std.specs.Prelude.{◌≡◌, ℕ, Bool, List};
ghost use Rattle.std.specs.Fn.{FnReturnsAt};
ghost use Rattle.octets.specs.Lists.{Computes};
ghost use Rattle.ledger.specs.Checks.{found, is_free, is_with, is_reference, is_code, is_token};

use ledger::record;
use ledger::record::{Record, records};
use ledger::state::{State, is_in};
use octets::part::same;

#[tactic(auto, unfolding(ledger::specs::Checks::is_free))]
fn is_free(r: &Record) -> bool
    ensures { result ≡ is_free r.now }
{
    is_in(r, State::Free)
}

// Whether the record has this value and this client id: two parameters here and below, as the calls' checks name them.
#[tactic(auto, unfolding(ledger::specs::Checks::is_with))]
fn is_with(r: &Record, v: &[u8; 32], id: &[u8; 16]) -> bool
    ensures { result ≡ is_with v.now id.now r.now }
{
    same(record::value(r), v) && same(record::client(r), id)
}

#[tactic(auto, unfolding(ledger::specs::Checks::is_reference))]
fn is_reference(r: &Record, v: &[u8; 32], id: &[u8; 16]) -> bool
    ensures { result ≡ is_reference v.now id.now r.now }
{
    is_in(r, State::Pushed) && is_with(r, v, id)
}

#[tactic(auto, unfolding(ledger::specs::Checks::is_code))]
fn is_code(r: &Record, v: &[u8; 32], id: &[u8; 16]) -> bool
    ensures { result ≡ is_code v.now id.now r.now }
{
    (is_in(r, State::Consented) || is_in(r, State::Redeemed)) && is_with(r, v, id)
}

#[tactic(auto, unfolding(ledger::specs::Checks::is_token))]
fn is_token(r: &Record, v: &[u8; 32]) -> bool
    ensures { result ≡ is_token v.now r.now }
{
    is_in(r, State::Redeemed) && same(record::token(r), v)
}

// The place of the first record that is wanted.
fn first<F: Fn(&Record) -> bool>(l: &[u8], is_wanted: F) -> Option<usize>
    requires { F.IsAlwaysCallable is_wanted }
    ensures { (q : List ℕ → Bool) → Computes (FnReturnsAt F.Fn is_wanted) q → result ≡ found q l.now }
{
    // By a name of its own, so that a must-fail edit can answer another place.
    let k = records(l).iter().position(is_wanted)?;
    Some(k)
}

// For check 8.
pub fn free(l: &[u8]) -> Option<usize>
    ensures { result ≡ found is_free l.now }
{
    first(l, is_free)
}

// For check 10.
pub fn reference(l: &[u8], v: &[u8; 32], id: &[u8; 16]) -> Option<usize>
    ensures { result ≡ found (is_reference v.now id.now) l.now }
{
    first(l, |r| is_reference(r, v, id))
}

// For checks 14 and 15.
pub fn code(l: &[u8], v: &[u8; 32], id: &[u8; 16]) -> Option<usize>
    ensures { result ≡ found (is_code v.now id.now) l.now }
{
    first(l, |r| is_code(r, v, id))
}

// For check 17.
pub fn token(l: &[u8], v: &[u8; 32]) -> Option<usize>
    ensures { result ≡ found (is_token v.now) l.now }
{
    first(l, |r| is_token(r, v))
}
