// Start: a ledger of zeros with next number 1.
// It rests on desk, which has its definition and its answer, on soundness and ledger, and serves demands 1 and 2.
#![tactic(auto)]

ghost use Rattle.std.specs.Prelude.{◌≡◌};
ghost use Rattle.desk.specs.Outcome.{left};
ghost use Rattle.desk.specs.Start.{start};

use desk::answer::{Answer, Refusal};
use ledger::clock::set_next;
use ledger::sound::Size;
use octets::part::clear;

// Its answer is the number alone, as demands 1 and 2 and the C interface have it.
pub fn start(ledger: &mut [u8]) -> u8
    ensures { left result ledger.new ≡ start ledger.old }
{
    let Size::Right = soundness::check_size(ledger) else {
        return u8::from(Refusal::LedgerUnsound);
    };
    clear(ledger);
    set_next(ledger, 1);
    Answer::DONE
}
