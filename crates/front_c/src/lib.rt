// The exports of front for C, under the names that include/perdigolh.h declares. It rests on front: each function hands on what it is lent and states
// front's clause again, since a crate is a library or a static library.
#![tactic(auto)]

ghost use Rattle.std.specs.Prelude.{◌≡◌};
ghost use Rattle.desk.specs.Outcome.{left, left_with};
ghost use Rattle.desk.specs.Start.{start};
ghost use Rattle.desk.specs.Push.{push};
ghost use Rattle.desk.specs.Decide.{decide};
ghost use Rattle.desk.specs.Token.{token};
ghost use Rattle.desk.specs.Resource.{resource};
ghost use Rattle.desk.specs.Sweep.{sweep};
ghost use Rattle.desk.specs.Pending.{pending};
ghost use Rattle.desk.specs.Introspect.{introspect};
ghost use Rattle.front.specs.Seen.{as_answer, as_decided, as_swept, as_introspected};
ghost use Rattle.front.specs.Consent.{consents};
ghost use Rattle.front.specs.Version.{version_number, interface_number};

use front::answer::{Answer, Decided, Introspected, Swept};

#[unsafe(no_mangle)]
pub extern "C" fn perdigolh_start(ledger: &mut [u8]) -> u8
    ensures { left result ledger.new ≡ start ledger.old }
{
    front::perdigolh_start(ledger)
}

#[unsafe(no_mangle)]
pub extern "C" fn perdigolh_push(
    ledger: &mut [u8],
    time: u64,
    table: &[u8],
    client: &[u8; 16],
    key: &[u8; 32],
    scope: u32,
    challenge: &[u8],
    redirect: &[u8],
    fresh: &[u8; 32],
) -> Answer
    ensures { left (as_answer result) ledger.new ≡ push ledger.old time table.now (record { client = client.now; key = key.now; scope = scope; challenge = challenge.now; redirect = redirect.now; fresh = fresh.now }) }
{
    front::perdigolh_push(
        ledger, time, table, client, key, scope, challenge, redirect, fresh,
    )
}

#[unsafe(no_mangle)]
pub extern "C" fn perdigolh_decide(
    ledger: &mut [u8],
    time: u64,
    reference: &[u8; 32],
    client: &[u8; 16],
    yes: u8,
    holder: u64,
    fresh: &[u8; 32],
    output: &mut [u8],
) -> Decided
    ensures { left_with (as_decided result) ledger.new output.new ≡ decide ledger.old time (record { reference = reference.now; client = client.now; yes = consents yes; holder = holder; fresh = fresh.now }) output.old }
{
    front::perdigolh_decide(ledger, time, reference, client, yes, holder, fresh, output)
}

#[unsafe(no_mangle)]
pub extern "C" fn perdigolh_token(
    ledger: &mut [u8],
    time: u64,
    table: &[u8],
    client: &[u8; 16],
    key: &[u8; 32],
    presented: &[u8; 32],
    code: &[u8; 32],
    verifier: &[u8],
    fresh: &[u8; 32],
) -> Answer
    ensures { left (as_answer result) ledger.new ≡ token ledger.old time table.now (record { client = client.now; key = key.now; presented = presented.now; code = code.now; verifier = verifier.now; fresh = fresh.now }) }
{
    front::perdigolh_token(
        ledger, time, table, client, key, presented, code, verifier, fresh,
    )
}

#[unsafe(no_mangle)]
pub extern "C" fn perdigolh_resource(
    ledger: &mut [u8],
    time: u64,
    token: &[u8; 32],
    presented: &[u8; 32],
    scope: u32,
    holder: u64,
) -> Answer
    ensures { left (as_answer result) ledger.new ≡ resource ledger.old time (record { token = token.now; presented = presented.now; scope = scope; holder = holder }) }
{
    front::perdigolh_resource(ledger, time, token, presented, scope, holder)
}

#[unsafe(no_mangle)]
pub extern "C" fn perdigolh_sweep(ledger: &mut [u8], time: u64) -> Swept
    ensures { left (as_swept result) ledger.new ≡ sweep ledger.old time }
{
    front::perdigolh_sweep(ledger, time)
}

// The request that waits, in the struct of decide's answer. The ledger is lent to be read only.
#[unsafe(no_mangle)]
pub extern "C" fn perdigolh_pending(
    ledger: &[u8],
    time: u64,
    reference: &[u8; 32],
    client: &[u8; 16],
    output: &mut [u8],
) -> Decided
    ensures { left_with (as_decided result) ledger.now output.new ≡ pending ledger.now time (record { reference = reference.now; client = client.now }) output.old }
{
    front::perdigolh_pending(ledger, time, reference, client, output)
}

#[unsafe(no_mangle)]
pub extern "C" fn perdigolh_introspect(
    ledger: &[u8],
    time: u64,
    token: &[u8; 32],
    output: &mut [u8],
) -> Introspected
    ensures { left_with (as_introspected result) ledger.now output.new ≡ introspect ledger.now time token.now output.old }
{
    front::perdigolh_introspect(ledger, time, token, output)
}

#[unsafe(no_mangle)]
pub extern "C" fn perdigolh_version() -> u32
    ensures { result ≡ version_number }
{
    front::perdigolh_version()
}

// Its name has the interface's number: a caller compiled with another header asks for another name, and is not linked.
#[unsafe(no_mangle)]
pub extern "C" fn perdigolh_interface_1() -> u32
    ensures { result ≡ interface_number }
{
    front::perdigolh_interface_1()
}
