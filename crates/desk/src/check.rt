// The checks that are the desk's own; those on ledger, table and forms stand with what they look at.
ghost use Rattle.std.specs.Prelude.{◌≡◌, ◌<◌, length, eqb, ltb, not};
ghost use Rattle.octets.specs.Parts.{zeros, same};
ghost use Rattle.ledger.specs.Limits.{last_number};
ghost use Rattle.ledger.specs.Fields.{in_state, bound_key, holder};
ghost use Rattle.ledger.specs.declared.state.State.TheVariants.{Redeemed};
ghost use Rattle.desk.specs.Limits.{output_least};
ghost use Rattle.desk.specs.Checks.{scope_fits};
ghost use Rattle.desk.specs.Tests.{fails_when, texts_test, scope_decision};

use forms::{Challenge, Form, Redirect};
use ledger::limit::Grant;
use ledger::record::{bound_key, holder};
use ledger::state::{State, is_in};
use octets::part::{is_zero, same};

// What a check of the desk's own answers.
// An enum: document 01 has each check's answer taken apart by let else, and the case says what was found.
#[derive(Clone, Copy)]
pub enum Test {
    Passed,
    Failed,
}

// A check fails where its row's condition holds. No From<bool>: a name has to say which way it goes.
fn fails_when(fails: bool) -> Test
    ensures { result ≡ fails_when fails }
{
    if fails { Test::Failed } else { Test::Passed }
}

fn fits(asked: u32, given: u32) -> bool
    ensures { result ≡ scope_fits asked given }
{
    asked != 0 && asked & given == asked
}

// Check 6 of push, by the permitted bits: the bits to store, or none.
pub fn granted(asked: u32, permitted: u32) -> Option<u32>
    ensures { result ≡ scope_decision asked permitted }
{
    fits(asked, permitted).then_some(asked)
}

// Check 6 of resource, by the granted bits.
pub fn within(asked: u32, granted: u32) -> Test
    ensures { result ≡ fails_when (not (scope_fits asked granted)) }
{
    fails_when(!fits(asked, granted))
}

// The redirect and the challenge of check 5.
pub fn texts(redirect: &[u8], challenge: &[u8]) -> Test
    ensures { result ≡ texts_test redirect.now challenge.now }
{
    let Form::Well = Redirect::check(redirect) else {
        return Test::Failed;
    };
    let Form::Well = Challenge::check(challenge) else {
        return Test::Failed;
    };
    Test::Passed
}

// Check 9.
pub fn number(next: u64) -> Test
    ensures { result ≡ fails_when (eqb next last_number) }
{
    fails_when(next == Grant::LAST)
}

// Check 12.
pub fn given(holder: u64) -> Test
    ensures { result ≡ fails_when (eqb holder 0) }
{
    fails_when(holder == 0)
}

// Check 13.
pub fn key(presented: &[u8; 32]) -> Test
    ensures { result ≡ fails_when (zeros presented.now) }
{
    fails_when(is_zero(presented))
}

// Check 15, of a record that check 14 found.
pub fn unredeemed(r: &[u8]) -> Test
    ensures { result ≡ fails_when (in_state Redeemed r.now) }
{
    fails_when(is_in(r, State::Redeemed))
}

// Check 18: it is the bound key that counts.
pub fn bound(r: &[u8], presented: &[u8; 32]) -> Test
    ensures { result ≡ fails_when (not (same (bound_key r.now) presented.now)) }
{
    fails_when(!same(bound_key(r), presented))
}

// Check 19.
pub fn held(r: &[u8], asked: u64) -> Test
    ensures { result ≡ fails_when (not (eqb (holder r.now) asked)) }
{
    fails_when(holder(r) != asked)
}

// Check 20.
pub fn room(out: &[u8]) -> Test
    ensures { result ≡ fails_when (ltb (length out.now) output_least) }
{
    fails_when(out.len() < Redirect::MOST)
}
