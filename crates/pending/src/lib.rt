// Pending: the request that waits under a reference, as the holder is shown it before she decides. It rests on desk, which has its definition and its
// answers, on soundness and ledger, and serves demands 1 and 2. The ledger is lent to be read only: no byte of it can change, so it is no step of a run
// (demand 3).
#![tactic(auto)]

ghost use Rattle.std.specs.Prelude.{◌≡◌};
ghost use Rattle.desk.specs.Outcome.{left_with};
ghost use Rattle.desk.specs.Pending.{pending};

use desk::answer::{Answer, Decided, Refusal};
use desk::check;
use desk::check::Test;
use desk::output::hand_out;
use ledger::clock::Timing;
use ledger::record::{Life, at, check_life, redirect_length};
use ledger::sound::Soundness;

pub fn pending(
    ledger: &[u8],
    time: u64,
    reference: &[u8; 32],
    client: &[u8; 16],
    output: &mut [u8],
) -> Decided
    ensures { left_with result ledger.now output.new ≡ pending ledger.now time (record { reference = reference.now; client = client.now }) output.old }
{
    let Soundness::Sound = soundness::check(ledger) else {
        return Decided::refused(Refusal::LedgerUnsound);
    };
    let Timing::Timely = ledger::clock::check(ledger, time) else {
        return Decided::refused(Refusal::TimeWrong);
    };
    let Test::Passed = check::room(output) else {
        return Decided::refused(Refusal::OutputShort);
    };
    let Some(k) = finding::record::reference(ledger, reference, client) else {
        return Decided::refused(Refusal::NoReference);
    };
    let r = at(ledger, k);
    let Life::Alive = check_life(r, time) else {
        return Decided::refused(Refusal::RecordExpired);
    };
    hand_out(output, r);
    Decided::with(Answer::of(r), redirect_length(r))
}
