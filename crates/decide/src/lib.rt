// Decide: the holder who has logged in allows the request once, or declines it.
// It rests on desk, which has its definition and its answers, on soundness and ledger, and serves demands 1 and 2.
#![tactic(auto)]

ghost use Rattle.std.specs.Prelude.{◌≡◌, ◌+◌, ◌<◌, length, ◌&&◌};
ghost use Rattle.ledger.specs.Limits.{record_size, clock_limit};
ghost use Rattle.ledger.specs.Fields.{grant, slots};
ghost use Rattle.ledger.specs.Checks.{taken};
ghost use Rattle.ledger.specs.Write.{consented, free};
ghost use Rattle.desk.specs.Answers.{answer_of, answer_no};
ghost use Rattle.desk.specs.Tests.{fails_when};
ghost use Rattle.desk.specs.Outcome.{left_with};
ghost use Rattle.desk.specs.Requests.{deciding};
ghost use Rattle.desk.specs.Decide.{decide, consent_at, decline_at};

use desk::answer::{Answer, Decided, Refusal};
use desk::check;
use desk::check::Test;
use desk::output::hand_out;
use desk::request::DecideRequest;
use ledger::clock::{Timing, set_clock};
use ledger::limit::{Code, Ledger};
use ledger::pool::Value;
use ledger::record::{Life, address, check_life, redirect_length};
use ledger::sound::Soundness;
use octets::part::clear;

// Writes a consent into its record, and answers what the record then has.
fn consent_record(r: &mut [u8], expiry: u64, holder: u64, fresh: &[u8; 32]) -> Answer
    ensures { (r.new ≡ consented expiry holder fresh.now r.old) × (result ≡ answer_of r.new) }
{
    ledger::write::consented(r, expiry, holder, fresh);
    Answer::of(r)
}

// Frees the record, and answers whose grant it was.
fn decline_record(r: &mut [u8], holder: u64) -> Answer
    requires { length r.old ≡ record_size }
    ensures { (r.new ≡ free) × (result ≡ answer_no (grant r.old) holder) }
{
    let answer = Answer::no(ledger::record::grant(r), holder);
    clear(r);
    answer
}

// The fresh value is looked at on yes alone.
fn check_fresh(ledger: &[u8], yes: bool, fresh: &[u8; 32]) -> Test
    ensures { result ≡ fails_when (yes && taken ledger.now fresh.now) }
{
    if !yes {
        return Test::Passed;
    }
    let Value::New = finding::pool::check(ledger, fresh) else {
        return Test::Failed;
    };
    Test::Passed
}

// Yes: what is written once the record is found and all checks have passed: record k, which is lent on, the clock, and the output. Yes and no are a function
// each, as each is a definition; that k is a place of the ledger lent is no fact that a type of places could hold.
fn consent_at(
    ledger: &mut [u8],
    k: usize,
    time: u64,
    holder: u64,
    fresh: &[u8; 32],
    out: &mut [u8],
) -> Decided
    requires { (k < slots ledger.old) × (time < clock_limit) }
    ensures { left_with result ledger.new out.new ≡ consent_at ledger.old time holder fresh.now out.old k }
{
    let a = address(k);
    let length = redirect_length(&ledger[a..a + Ledger::RECORD]);
    hand_out(out, &ledger[a..a + Ledger::RECORD]);
    let answer = consent_record(
        &mut ledger[a..a + Ledger::RECORD],
        time + Code::LIFETIME,
        holder,
        fresh,
    );
    set_clock(ledger, time);
    Decided::with(answer, length)
}

// No: the same where the record is freed.
fn decline_at(ledger: &mut [u8], k: usize, time: u64, holder: u64, out: &mut [u8]) -> Decided
    requires { k < slots ledger.old }
    ensures { left_with result ledger.new out.new ≡ decline_at ledger.old time holder out.old k }
{
    let a = address(k);
    let length = redirect_length(&ledger[a..a + Ledger::RECORD]);
    hand_out(out, &ledger[a..a + Ledger::RECORD]);
    let answer = decline_record(&mut ledger[a..a + Ledger::RECORD], holder);
    set_clock(ledger, time);
    Decided::with(answer, length)
}

pub fn decide(ledger: &mut [u8], time: u64, request: DecideRequest, out: &mut [u8]) -> Decided
    ensures { left_with result ledger.new out.new ≡ decide ledger.old time (deciding request.entry) out.old }
{
    let Soundness::Sound = soundness::check(ledger) else {
        return Decided::refused(Refusal::LedgerUnsound);
    };
    let Timing::Timely = ledger::clock::check(ledger, time) else {
        return Decided::refused(Refusal::TimeWrong);
    };
    let Test::Passed = check::room(out) else {
        return Decided::refused(Refusal::OutputShort);
    };
    let Some(k) = finding::record::reference(ledger, request.reference, request.client) else {
        return Decided::refused(Refusal::NoReference);
    };
    let Life::Alive = check_life(ledger::record::at(ledger, k), time) else {
        return Decided::refused(Refusal::RecordExpired);
    };
    let Test::Passed = check::given(request.holder) else {
        return Decided::refused(Refusal::NoHolder);
    };
    let Test::Passed = check_fresh(ledger, request.yes, request.fresh) else {
        return Decided::refused(Refusal::FreshTaken);
    };
    if request.yes {
        return consent_at(ledger, k, time, request.holder, request.fresh, out);
    }
    decline_at(ledger, k, time, request.holder, out)
}
