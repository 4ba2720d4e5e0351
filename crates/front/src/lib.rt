// Front: the six calls and the two that only read, for a web front, by the names that C calls them. It rests on the calls and on desk: each function hands on
// what it is lent and answers the desk's answer in a struct that C can read. Its contract is the desk's equation, read through that struct.
// Two functions beside the calls tell a caller which release and which interface it has. The crate front_c exports them.
#![tactic(auto)]

ghost use Rattle.std.specs.Prelude.{◌≡◌};
ghost use Rattle.desk.specs.Outcome.{left, left_with};
ghost use Rattle.desk.specs.Start.{start};
ghost use Rattle.desk.specs.Push.{push};
ghost use Rattle.desk.specs.Decide.{decide};
ghost use Rattle.desk.specs.Token.{token};
ghost use Rattle.desk.specs.Resource.{resource};
ghost use Rattle.desk.specs.Sweep.{sweep};
ghost use Rattle.desk.specs.Pending.{pending};
ghost use Rattle.desk.specs.Introspect.{introspect};
ghost use Rattle.front.specs.Seen.{as_answer, as_decided, as_swept, as_introspected};
ghost use Rattle.front.specs.Consent.{consents};
ghost use Rattle.front.specs.Version.{version_number, interface_number};

use answer::{Answer, Decided, Introspected, Swept};
use choice::Choice;
use desk::request::{DecideRequest, PushRequest, ResourceRequest, TokenRequest};
use version::{Interface, Version};

pub mod answer;
pub mod choice;
pub mod version;

pub fn perdigolh_start(ledger: &mut [u8]) -> u8
    ensures { left result ledger.new ≡ start ledger.old }
{
    start::start(ledger)
}

pub fn perdigolh_push(
    ledger: &mut [u8],
    time: u64,
    table: &[u8],
    client: &[u8; 16],
    key: &[u8; 32],
    scope: u32,
    challenge: &[u8],
    redirect: &[u8],
    fresh: &[u8; 32],
) -> Answer
    ensures { left (as_answer result) ledger.new ≡ push ledger.old time table.now (record { client = client.now; key = key.now; scope = scope; challenge = challenge.now; redirect = redirect.now; fresh = fresh.now }) }
{
    let request = PushRequest {
        client,
        key,
        scope,
        challenge,
        redirect,
        fresh,
    };
    push::push(ledger, time, table, request).into()
}

pub fn perdigolh_decide(
    ledger: &mut [u8],
    time: u64,
    reference: &[u8; 32],
    client: &[u8; 16],
    yes: u8,
    holder: u64,
    fresh: &[u8; 32],
    output: &mut [u8],
) -> Decided
    ensures { left_with (as_decided result) ledger.new output.new ≡ decide ledger.old time (record { reference = reference.now; client = client.now; yes = consents yes; holder = holder; fresh = fresh.now }) output.old }
{
    let request = DecideRequest {
        reference,
        client,
        yes: Choice::consents(yes),
        holder,
        fresh,
    };
    decide::decide(ledger, time, request, output).into()
}

pub fn perdigolh_token(
    ledger: &mut [u8],
    time: u64,
    table: &[u8],
    client: &[u8; 16],
    key: &[u8; 32],
    presented: &[u8; 32],
    code: &[u8; 32],
    verifier: &[u8],
    fresh: &[u8; 32],
) -> Answer
    ensures { left (as_answer result) ledger.new ≡ token ledger.old time table.now (record { client = client.now; key = key.now; presented = presented.now; code = code.now; verifier = verifier.now; fresh = fresh.now }) }
{
    let request = TokenRequest {
        client,
        key,
        presented,
        code,
        verifier,
        fresh,
    };
    token::token(ledger, time, table, request).into()
}

pub fn perdigolh_resource(
    ledger: &mut [u8],
    time: u64,
    token: &[u8; 32],
    presented: &[u8; 32],
    scope: u32,
    holder: u64,
) -> Answer
    ensures { left (as_answer result) ledger.new ≡ resource ledger.old time (record { token = token.now; presented = presented.now; scope = scope; holder = holder }) }
{
    let request = ResourceRequest {
        token,
        presented,
        scope,
        holder,
    };
    resource::resource(ledger, time, request).into()
}

pub fn perdigolh_sweep(ledger: &mut [u8], time: u64) -> Swept
    ensures { left (as_swept result) ledger.new ≡ sweep ledger.old time }
{
    sweep::sweep(ledger, time).into()
}

// The request that waits, in the struct of decide's answer. The ledger is lent to be read only.
pub fn perdigolh_pending(
    ledger: &[u8],
    time: u64,
    reference: &[u8; 32],
    client: &[u8; 16],
    output: &mut [u8],
) -> Decided
    ensures { left_with (as_decided result) ledger.now output.new ≡ pending ledger.now time (record { reference = reference.now; client = client.now }) output.old }
{
    pending::pending(ledger, time, reference, client, output).into()
}

pub fn perdigolh_introspect(
    ledger: &[u8],
    time: u64,
    token: &[u8; 32],
    output: &mut [u8],
) -> Introspected
    ensures { left_with (as_introspected result) ledger.now output.new ≡ introspect ledger.now time token.now output.old }
{
    introspect::introspect(ledger, time, token, output).into()
}

pub fn perdigolh_version() -> u32
    ensures { result ≡ version_number }
{
    Version::NUMBER
}

// Its name has the interface's number: a caller compiled with another header asks for another name, and is not linked.
pub fn perdigolh_interface_1() -> u32
    ensures { result ≡ interface_number }
{
    Interface::NUMBER
}
