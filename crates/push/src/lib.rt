// Push: a buyer's program leaves its request and gets a reference.
// It rests on desk, which has its definition and its answers, on soundness, ledger, clients and forms, and serves demands 1 and 2.
#![tactic(auto)]

ghost use Rattle.std.specs.Prelude.{◌≡◌, ◌<◌};
ghost use Rattle.ledger.specs.Limits.{last_number};
ghost use Rattle.ledger.specs.Fields.{rec, slots};
ghost use Rattle.ledger.specs.Write.{pushed};
ghost use Rattle.desk.specs.Answers.{answer_of};
ghost use Rattle.desk.specs.Outcome.{left};
ghost use Rattle.desk.specs.Requests.{pushing};
ghost use Rattle.desk.specs.Push.{entered, push};

use clients::lifetime::lifetime_of;
use clients::record::{client_at, permitted};
use clients::table::Table;
use desk::answer::{Answer, Refusal};
use desk::check;
use desk::check::Test;
use desk::request::PushRequest;
use ledger::clock::{Timing, next_number, set_clock, set_next};
use ledger::limit::Ledger;
use ledger::pool::Value;
use ledger::record::address;
use ledger::sound::Soundness;
use ledger::write;
use ledger::write::Push;

// Writes a push into its record, and answers what the record then has.
fn push_record(r: &mut [u8], push: Push) -> Answer
    ensures { (r.new ≡ pushed push.entry.scope push.entry.grant push.entry.expiry push.entry.client.now push.entry.challenge.now push.entry.fresh.now push.entry.redirect.now r.old) × (result ≡ answer_of r.new) }
{
    write::pushed(r, push);
    Answer::of(r)
}

// What is written once the record is found and all checks have passed: record k, which is lent on, the next number and the clock. That k is a
// place of the ledger lent is no fact that a type of places could hold.
fn push_at(ledger: &mut [u8], k: usize, time: u64, push: Push) -> Answer
    requires { (k < slots ledger.old) × (push.grant < last_number) }
    ensures { left result ledger.new ≡ entered ledger.old time k push.entry.grant (pushed push.entry.scope push.entry.grant push.entry.expiry push.entry.client.now push.entry.challenge.now push.entry.fresh.now push.entry.redirect.now (rec ledger.old k)) }
{
    let a = address(k);
    let answer = push_record(&mut ledger[a..a + Ledger::RECORD], push);
    set_next(ledger, push.grant + 1);
    set_clock(ledger, time);
    answer
}

pub fn push(ledger: &mut [u8], time: u64, table: &[u8], request: PushRequest) -> Answer
    ensures { left result ledger.new ≡ push ledger.old time table.now (pushing request.entry) }
{
    let Soundness::Sound = soundness::check(ledger) else {
        return Answer::refused(Refusal::LedgerUnsound);
    };
    let Timing::Timely = ledger::clock::check(ledger, time) else {
        return Answer::refused(Refusal::TimeWrong);
    };
    let Table::Sound = clients::table::check(table) else {
        return Answer::refused(Refusal::TableUnsound);
    };
    let Some(who) = clients::known::find(table, request.client, request.key) else {
        return Answer::refused(Refusal::ClientUnknown);
    };
    let Test::Passed = check::texts(request.redirect, request.challenge) else {
        return Answer::refused(Refusal::IllFormed);
    };
    let Some(bits) = check::granted(request.scope, permitted(table, who)) else {
        return Answer::refused(Refusal::ScopeRefused);
    };
    let Value::New = finding::pool::check(ledger, request.fresh) else {
        return Answer::refused(Refusal::FreshTaken);
    };
    let Some(k) = finding::record::free(ledger) else {
        return Answer::refused(Refusal::LedgerFull);
    };
    let number = next_number(ledger);
    let Test::Passed = check::number(number) else {
        return Answer::refused(Refusal::NumbersSpent);
    };
    let push = Push {
        scope: bits,
        grant: number,
        expiry: time + lifetime_of(client_at(table, who)),
        client: request.client,
        challenge: request.challenge,
        fresh: request.fresh,
        redirect: request.redirect,
    };
    push_at(ledger, k, time, push)
}
