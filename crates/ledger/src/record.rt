// A record of the ledger, and its fields, for any slice.
ghost use Rattle.std.specs.Prelude.{◌≡◌, ◌%◌, ◌^◌};
ghost use Rattle.ledger.specs.Fields.{address, rec, slots, records, redirect_length, scope, grant, expiry, holder, client, challenge, value, token, bound_key, redirect_field};
ghost use Rattle.ledger.specs.Checks.{check_life};

use super::field::Field;
use super::limit::Ledger;
use octets::number::Number;
use octets::part::{cut, from};

// How many records there are.
#[tactic(auto, unfolding(crate::specs::Fields::slots))]
pub fn slots(l: &[u8]) -> usize
    ensures { result ≡ slots l.now }
{
    l.len().saturating_sub(Ledger::HEAD) / Ledger::RECORD
}

pub type Record = [u8; Ledger::RECORD];

// The records, in ledger order.
pub fn records(l: &[u8]) -> &[Record]
    ensures { result.now ≡ records l.now }
{
    from(l, Ledger::HEAD).as_chunks::<{ Ledger::RECORD }>().0
}

// Where record k begins. Any k may be asked: one that no ledger reaches wraps, as machine numbers do.
pub fn address(k: usize) -> usize
    ensures { result ≡ address k % 2 ^ 64 }
{
    Ledger::HEAD.wrapping_add(k << Ledger::RECORD_BITS)
}

// Record k, or what there is of it.
pub fn at(l: &[u8], k: usize) -> &[u8]
    ensures { result.now ≡ rec l.now k }
{
    if slots(l) < k {
        return cut(l, l.len(), 0);
    }
    cut(l, address(k), Ledger::RECORD)
}

// The fields, each by the name that document 01 gives it: a function for any field would leave its callers to name place and width.
pub fn redirect_length(r: &[u8]) -> u8
    ensures { result ≡ redirect_length r.now }
{
    r.get(Field::LENGTH.place).copied().unwrap_or(0)
}

#[tactic(auto, using(octets::proofs::Spans::field_read))]
pub fn scope(r: &[u8]) -> u32
    ensures { result ≡ scope r.now }
{
    u32::read(Field::SCOPE.of(r))
}

#[tactic(auto, using(octets::proofs::Spans::field_read))]
pub fn grant(r: &[u8]) -> u64
    ensures { result ≡ grant r.now }
{
    u64::read(Field::GRANT.of(r))
}

#[tactic(auto, using(octets::proofs::Spans::field_read))]
pub fn expiry(r: &[u8]) -> u64
    ensures { result ≡ expiry r.now }
{
    u64::read(Field::EXPIRY.of(r))
}

#[tactic(auto, using(octets::proofs::Spans::field_read))]
pub fn holder(r: &[u8]) -> u64
    ensures { result ≡ holder r.now }
{
    u64::read(Field::HOLDER.of(r))
}

pub fn client(r: &[u8]) -> &[u8]
    ensures { result.now ≡ client r.now }
{
    Field::CLIENT.of(r)
}

pub fn challenge(r: &[u8]) -> &[u8]
    ensures { result.now ≡ challenge r.now }
{
    Field::CHALLENGE.of(r)
}

pub fn value(r: &[u8]) -> &[u8]
    ensures { result.now ≡ value r.now }
{
    Field::VALUE.of(r)
}

pub fn token(r: &[u8]) -> &[u8]
    ensures { result.now ≡ token r.now }
{
    Field::TOKEN.of(r)
}

pub fn bound_key(r: &[u8]) -> &[u8]
    ensures { result.now ≡ bound_key r.now }
{
    Field::KEY.of(r)
}

// The redirect with the zeros behind it.
pub fn redirect_field(r: &[u8]) -> &[u8]
    ensures { result.now ≡ redirect_field r.now }
{
    Field::REDIRECT.of(r)
}

// An enum: document 01 has each check's answer taken apart by let else, and the case says what was found.
#[derive(Clone, Copy)]
pub enum Life {
    Alive,
    Expired,
}

// Whether a record is expired.
#[tactic(auto, unfolding(crate::specs::Checks::check_life))]
pub fn check_life(r: &[u8], time: u64) -> Life
    ensures { result ≡ check_life r.now time }
{
    if expiry(r) <= time {
        return Life::Expired;
    }
    Life::Alive
}
