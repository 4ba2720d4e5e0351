// Token: the program redeems its code, with the secret whose hash it left, for a token tied to its key.
// It rests on desk, which has its definition and its answers, on soundness, finding, ledger, clients, forms, s256 and octets, and serves demands 1 and 2.
#![tactic(auto)]

ghost use Rattle.std.specs.Prelude.{◌≡◌, ◌+◌, ◌<◌};
ghost use Rattle.ledger.specs.Limits.{token_lifetime, clock_limit};
ghost use Rattle.ledger.specs.Fields.{rec, slots, challenge};
ghost use Rattle.ledger.specs.Write.{redeemed};
ghost use Rattle.desk.specs.Answers.{answer_of};
ghost use Rattle.desk.specs.Outcome.{left};
ghost use Rattle.desk.specs.Requests.{redeeming};
ghost use Rattle.desk.specs.Token.{rewritten, ended, token};
ghost use Rattle.s256.specs.Rule.{matching};

use clients::table::Table;
use desk::answer::{Answer, Refusal};
use desk::check;
use desk::check::Test;
use desk::request::TokenRequest;
use forms::{Form, Verifier};
use ledger::clock::{Timing, set_clock};
use ledger::limit::{Ledger, Token};
use ledger::pool::Value;
use ledger::record::{Life, address, at, check_life};
use ledger::sound::Soundness;
use octets::part::clear;
use s256::Match;

// Check 16, of the record found.
fn check_verifier(r: &[u8], verifier: &[u8]) -> Match
    ensures { result ≡ matching verifier.now (challenge r.now) }
{
    s256::matches(verifier, ledger::record::challenge(r))
}

// Writes the token into its record, and answers what the record then has.
fn token_record(r: &mut [u8], expiry: u64, fresh: &[u8; 32], key: &[u8; 32]) -> Answer
    ensures { (r.new ≡ redeemed expiry fresh.now key.now r.old) × (result ≡ answer_of r.new) }
{
    ledger::write::redeemed(r, expiry, fresh, key);
    Answer::of(r)
}

// What a code shown twice leaves: record k, which is lent on, is freed, and the clock is set. That k is a place of the ledger lent is no fact
// that a type of places could hold.
fn end_at(ledger: &mut [u8], k: usize, time: u64)
    requires { k < slots ledger.old }
    ensures { ledger.new ≡ ended ledger.old time k }
{
    let a = address(k);
    clear(&mut ledger[a..a + Ledger::RECORD]);
    set_clock(ledger, time);
}

// What is written once the record is found and all checks have passed: record k, which is lent on, and the clock. The place k is as above.
fn token_at(ledger: &mut [u8], k: usize, time: u64, fresh: &[u8; 32], key: &[u8; 32]) -> Answer
    requires { (k < slots ledger.old) × (time < clock_limit) }
    ensures { left result ledger.new ≡ rewritten ledger.old time k (redeemed (time + token_lifetime) fresh.now key.now (rec ledger.old k)) }
{
    let a = address(k);
    let answer = token_record(
        &mut ledger[a..a + Ledger::RECORD],
        time + Token::LIFETIME,
        fresh,
        key,
    );
    set_clock(ledger, time);
    answer
}

pub fn token(ledger: &mut [u8], time: u64, table: &[u8], request: TokenRequest) -> Answer
    ensures { left result ledger.new ≡ token ledger.old time table.now (redeeming request.entry) }
{
    let Soundness::Sound = soundness::check(ledger) else {
        return Answer::refused(Refusal::LedgerUnsound);
    };
    let Timing::Timely = ledger::clock::check(ledger, time) else {
        return Answer::refused(Refusal::TimeWrong);
    };
    let Table::Sound = clients::table::check(table) else {
        return Answer::refused(Refusal::TableUnsound);
    };
    let Some(_) = clients::known::find(table, request.client, request.key) else {
        return Answer::refused(Refusal::ClientUnknown);
    };
    let Test::Passed = check::key(request.presented) else {
        return Answer::refused(Refusal::NoKey);
    };
    let Form::Well = Verifier::check(request.verifier) else {
        return Answer::refused(Refusal::IllFormed);
    };
    let Some(k) = finding::record::code(ledger, request.code, request.client) else {
        return Answer::refused(Refusal::NoCode);
    };
    let Test::Passed = check::unredeemed(at(ledger, k)) else {
        end_at(ledger, k, time);
        return Answer::refused(Refusal::CodeRedeemed);
    };
    let Life::Alive = check_life(at(ledger, k), time) else {
        return Answer::refused(Refusal::RecordExpired);
    };
    let Match::Same = check_verifier(at(ledger, k), request.verifier) else {
        return Answer::refused(Refusal::VerifierDiffers);
    };
    let Value::New = finding::pool::check(ledger, request.fresh) else {
        return Answer::refused(Refusal::FreshTaken);
    };
    token_at(ledger, k, time, request.fresh, request.presented)
}
