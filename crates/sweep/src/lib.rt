// Sweep: every expired record becomes free.
// It rests on desk, which has its definition and its answers, on soundness and ledger, and serves demands 1 and 2.
#![tactic(auto)]

ghost use Rattle.std.specs.Prelude.{◌≡◌};
ghost use Rattle.desk.specs.Outcome.{left};
ghost use Rattle.desk.specs.Sweep.{sweep};

use desk::answer::{Refusal, Swept};
use ledger::clock::{Timing, set_clock};
use ledger::sound::Soundness;

pub fn sweep(ledger: &mut [u8], time: u64) -> Swept
    ensures { left result ledger.new ≡ sweep ledger.old time }
{
    let Soundness::Sound = soundness::check(ledger) else {
        return Swept::refused(Refusal::LedgerUnsound);
    };
    let Timing::Timely = ledger::clock::check(ledger, time) else {
        return Swept::refused(Refusal::TimeWrong);
    };
    let freed = ledger::sweep::sweep(ledger, time);
    set_clock(ledger, time);
    Swept::of(freed)
}
