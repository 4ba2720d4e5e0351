// Introspect: what the figure servers are told of a token, as a text (document 02, Q-1). The ledger is lent to be read only.
// It rests on desk, which has its definition and its answer, on description for the text, on soundness, finding and ledger, and serves demands 1 and 2.
#![tactic(auto)]

ghost use Rattle.std.specs.Prelude.{◌≡◌};
ghost use Rattle.description.specs.Writing.{written, written_over};
ghost use Rattle.desk.specs.Outcome.{left_with};
ghost use Rattle.desk.specs.Introspect.{text_for, introspect};

use description::Description;
use desk::answer::{Introspected, Refusal};
use ledger::clock::Timing;
use ledger::record::{Life, at, bound_key, check_life, client, expiry, holder, scope};
use ledger::sound::Soundness;

// The text for the token at this time: of its record, where there is one and it is alive.
fn describe(ledger: &[u8], time: u64, token: &[u8; 32], output: &mut [u8]) -> Option<usize>
    ensures { (result ≡ written (text_for ledger.now time token.now) output.old) × (output.new ≡ written_over (text_for ledger.now time token.now) output.old) }
{
    let Some(k) = finding::record::token(ledger, token) else {
        return description::inactive(output);
    };
    let r = at(ledger, k);
    let Life::Alive = check_life(r, time) else {
        return description::inactive(output);
    };
    let described = Description {
        client: client(r),
        holder: holder(r),
        expiry: expiry(r),
        scope: scope(r),
        key: bound_key(r),
    };
    description::live(output, described)
}

pub fn introspect(ledger: &[u8], time: u64, token: &[u8; 32], output: &mut [u8]) -> Introspected
    ensures { left_with result ledger.now output.new ≡ introspect ledger.now time token.now output.old }
{
    let Soundness::Sound = soundness::check(ledger) else {
        return Introspected::refused(Refusal::LedgerUnsound);
    };
    let Timing::Timely = ledger::clock::check(ledger, time) else {
        return Introspected::refused(Refusal::TimeWrong);
    };
    let Some(n) = describe(ledger, time, token, output) else {
        return Introspected::refused(Refusal::OutputShort);
    };
    Introspected::with(n)
}
