// Resource: with token and key the program reads only what the holder allowed.
// It rests on desk, which has its definition and its answers, on soundness and ledger, and serves demands 1 and 2.
#![tactic(auto)]

ghost use Rattle.std.specs.Prelude.{◌≡◌};
ghost use Rattle.desk.specs.Outcome.{left};
ghost use Rattle.desk.specs.Requests.{reading};
ghost use Rattle.desk.specs.Resource.{look, resource_by, resource};

use desk::answer::{Answer, Refusal};
use desk::check;
use desk::check::Test;
use desk::request::ResourceRequest;
use ledger::clock::{Timing, set_clock};
use ledger::record::{Life, at, check_life};
use ledger::sound::Soundness;

// The looking half: it writes nothing.
pub fn look(ledger: &[u8], time: u64, request: ResourceRequest) -> Result<Answer, Refusal>
    ensures { result ≡ look ledger.now time (reading request.entry) }
{
    let Soundness::Sound = soundness::check(ledger) else {
        return Err(Refusal::LedgerUnsound);
    };
    let Timing::Timely = ledger::clock::check(ledger, time) else {
        return Err(Refusal::TimeWrong);
    };
    let Some(k) = finding::record::token(ledger, request.token) else {
        return Err(Refusal::NoToken);
    };
    let r = at(ledger, k);
    let Life::Alive = check_life(r, time) else {
        return Err(Refusal::RecordExpired);
    };
    let Test::Passed = check::bound(r, request.presented) else {
        return Err(Refusal::KeyDiffers);
    };
    let Test::Passed = check::within(request.scope, ledger::record::scope(r)) else {
        return Err(Refusal::ScopeRefused);
    };
    let Test::Passed = check::held(r, request.holder) else {
        return Err(Refusal::HolderDiffers);
    };
    Ok(Answer::of(r))
}

// What a reading leaves: where it is granted, the clock becomes now.
fn resource_by(ledger: &mut [u8], time: u64, reading: Result<Answer, Refusal>) -> Answer
    ensures { left result ledger.new ≡ resource_by reading ledger.old time }
{
    match reading {
        Ok(answer) => {
            set_clock(ledger, time);
            answer
        }
        Err(why) => Answer::refused(why),
    }
}

pub fn resource(ledger: &mut [u8], time: u64, request: ResourceRequest) -> Answer
    ensures { left result ledger.new ≡ resource ledger.old time (reading request.entry) }
{
    let reading = look(ledger, time, request);
    resource_by(ledger, time, reading)
}
