// What soundness asks of pairs of records: grant numbers distinct, no value or token twice.
ghost use Rattle.std.specs.Prelude.{◌≡◌};
ghost use Rattle.octets.specs.Lists.{every, apart};
ghost use Rattle.ledger.specs.Fields.{value};
ghost use Rattle.ledger.specs.Sound.{same_grant, meets, own_apart};
ghost use Rattle.soundness.specs.Quick.{lead, token_lead, near};

use ledger::field::Field;
use ledger::pool::holds;
use ledger::record::{Record, grant, token, value};
use ledger::state::{State, is_in};
use octets::part::{is_zero, same};

#[tactic(auto, unfolding(ledger::specs::Sound::meets))]
fn meets(r: &Record, s: &Record) -> bool
    ensures { result ≡ meets r.now s.now }
{
    holds(value(r), s) || holds(token(r), s)
}

#[tactic(auto, unfolding(ledger::specs::Sound::own_apart))]
fn is_own_apart(r: &Record) -> bool
    ensures { result ≡ own_apart r.now }
{
    is_zero(value(r)) || !same(value(r), token(r))
}

pub fn own_apart(records: &[Record]) -> bool
    ensures { result ≡ every own_apart records.now }
{
    records.iter().all(is_own_apart)
}

#[tactic(auto, unfolding(ledger::specs::Sound::same_grant))]
fn is_same_grant(r: &Record, s: &Record) -> bool
    ensures { result ≡ same_grant r.now s.now }
{
    grant(r) == grant(s) && !is_in(r, State::Free) && !is_in(s, State::Free)
}

// Grant numbers are distinct: each pair of records is looked at, up to the first clash. A free record has no number to compare.
#[tactic(auto, using(crate::proofs::ShortCuts::free_passed))]
pub fn grants_apart(records: &[Record]) -> bool
    ensures { result ≡ apart same_grant records.now }
{
    let mut clash = false;
    'search: for (i, r) in records.iter().enumerate() {
        if is_in(r, State::Free) {
            continue;
        }
        for s in &records[i + 1..] {
            if is_same_grant(r, s) {
                clash = true;
                break 'search;
            }
        }
    }
    !clash
}

#[tactic(auto, unfolding(crate::specs::Quick::lead))]
fn lead(v: &[u8]) -> u8
    ensures { result ≡ lead v.now }
{
    v.first().copied().unwrap_or(0)
}

// A record beside the leads of what it holds, by which it is looked for in the others: of its value, and of its token or the value's once more.
#[derive(Clone, Copy)]
struct Held<'a> {
    r: &'a Record,
    first: u8,
    second: u8,
    ghost first_so: { first ≡ lead (value r.now) },
    ghost second_so: { second ≡ token_lead r.now },
}

impl<'a> Held<'a> {
    #[tactic(auto, unfolding(crate::specs::Quick::token_lead))]
    fn of(r: &'a Record) -> Held<'a>
        ensures { result.r.now ≡ r.now }
    {
        let first = lead(value(r));
        let held = token(r);
        let second = if is_zero(held) { first } else { lead(held) };
        Held { r, first, second }
    }

    #[tactic(auto, unfolding(crate::specs::Quick::near))]
    fn is_near(&self, s: &Record) -> bool
        ensures { result ≡ near self.now.first self.now.second s.now }
    {
        let v = lead(value(s));
        let t = lead(token(s));
        // All four at once: with a way out after each, the search of a full ledger takes a quarter longer.
        (v == self.first) | (v == self.second) | (t == self.first) | (t == self.second)
    }

    #[tactic(auto, using(crate::proofs::ShortCuts::near_none))]
    fn meets(&self, s: &Record) -> bool
        ensures { result ≡ meets self.now.r.now s.now }
    {
        self.is_near(s) && meets(self.r, s)
    }
}

// No value or token stands twice: each pair of records is looked at, up to the first clash. A record that holds nothing meets none.
// A search of its own: its rows are made ready, those of the grants are not, and one that is generic in row and test is no plainer.
#[tactic(auto, using(crate::proofs::ShortCuts::idle_passed))]
pub fn values_apart(records: &[Record]) -> bool
    ensures { result ≡ apart meets records.now }
{
    let mut clash = false;
    'search: for (i, r) in records.iter().enumerate() {
        // Value and token in one look.
        if is_zero(&r[Field::VALUE.place..Field::KEY.place]) {
            continue;
        }
        let held = Held::of(r);
        for s in &records[i + 1..] {
            if held.meets(s) {
                clash = true;
                break 'search;
            }
        }
    }
    !clash
}
