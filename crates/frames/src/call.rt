// The calls of the desk: a frame's fields in, the ledger rewritten, the answer's bytes out.
ghost use Rattle.std.specs.Prelude.{◌≡◌, ◌+◌, ◌≤◌, length};
ghost use Rattle.octets.specs.Parts.{part};
ghost use Rattle.desk.specs.Outcome.{left, left_with};
ghost use Rattle.desk.specs.Push.{push};
ghost use Rattle.desk.specs.Decide.{decide};
ghost use Rattle.desk.specs.Token.{token};
ghost use Rattle.desk.specs.Resource.{resource};
ghost use Rattle.desk.specs.Sweep.{sweep};
ghost use Rattle.wire.specs.Kinds.{width, least};
ghost use Rattle.wire.specs.Kinds.{push as push_row, decide as decideRow, token as tokenRow, resource as resourceRow};
ghost use Rattle.wire.specs.Calls.{time, push_request, decide_request, token_request, resource_request};
ghost use Rattle.frames.specs.Serve.{written, called};

use super::answer::Bytes;
use desk::answer::{Answer, Decided, Swept};
use desk::request::{DecideRequest, PushRequest, ResourceRequest, TokenRequest};
use forms::{Challenge, Redirect};
use octets::number::Number;
use octets::part::{copy, cut, from};
use wire::kind::{ClientId, Decide, Key, Kind, Push, Resource, Sweep, Token, Value};

// A frame is as long as its kind asks, and pushes and tokens have a rest behind it: no array type holds it, so each call asks for its width.

// The field of N bytes that begins at an index.
#[tactic(auto, using(octets::proofs::Parts::laid_all, crate::proofs::Answers::cut_length))]
fn field<const N: usize>(f: &[u8], at: usize) -> [u8; N]
    requires { at + N ≤ length f.now }
    ensures { result ≡ part f.now at N }
{
    let mut a = [0u8; N];
    copy(&mut a, cut(f, at, N));
    a
}

fn push(f: &[u8], ledger: &mut [u8], table: &[u8]) -> Answer
    requires { width push_row ≤ length f.now }
    ensures { left result ledger.new ≡ push ledger.old (time f.now) table.now (push_request f.now) }
{
    let client = field::<{ ClientId::WIDTH }>(f, Push::CLIENT);
    let key = field::<{ Key::WIDTH }>(f, Push::KEY);
    let fresh = field::<{ Value::WIDTH }>(f, Push::FRESH);
    let time = u64::read(from(f, Push::TIME));
    let request = PushRequest {
        client: &client,
        key: &key,
        scope: u32::read(from(f, Push::SCOPE)),
        challenge: cut(f, Push::CHALLENGE, Challenge::LENGTH),
        redirect: from(f, Push::WIDTH),
        fresh: &fresh,
    };
    push::push(ledger, time, table, request)
}

fn decide(f: &[u8], ledger: &mut [u8], out: &mut [u8]) -> Decided
    requires { width decideRow ≤ length f.now }
    ensures { left_with result ledger.new out.new ≡ decide ledger.old (time f.now) (decide_request f.now) out.old }
{
    let client = field::<{ ClientId::WIDTH }>(f, Decide::CLIENT);
    let reference = field::<{ Value::WIDTH }>(f, Decide::REFERENCE);
    let fresh = field::<{ Value::WIDTH }>(f, Decide::FRESH);
    let time = u64::read(from(f, Decide::TIME));
    let request = DecideRequest {
        reference: &reference,
        client: &client,
        yes: f[Decide::YES] == 1,
        holder: u64::read(from(f, Decide::HOLDER)),
        fresh: &fresh,
    };
    decide::decide(ledger, time, request, out)
}

fn token(f: &[u8], ledger: &mut [u8], table: &[u8]) -> Answer
    requires { width tokenRow ≤ length f.now }
    ensures { left result ledger.new ≡ token ledger.old (time f.now) table.now (token_request f.now) }
{
    let client = field::<{ ClientId::WIDTH }>(f, Token::CLIENT);
    let key = field::<{ Key::WIDTH }>(f, Token::KEY);
    let presented = field::<{ Key::WIDTH }>(f, Token::PRESENTED);
    let code = field::<{ Value::WIDTH }>(f, Token::CODE);
    let fresh = field::<{ Value::WIDTH }>(f, Token::FRESH);
    let time = u64::read(from(f, Token::TIME));
    let request = TokenRequest {
        client: &client,
        key: &key,
        presented: &presented,
        code: &code,
        verifier: from(f, Token::WIDTH),
        fresh: &fresh,
    };
    token::token(ledger, time, table, request)
}

fn resource(f: &[u8], ledger: &mut [u8]) -> Answer
    requires { width resourceRow ≤ length f.now }
    ensures { left result ledger.new ≡ resource ledger.old (time f.now) (resource_request f.now) }
{
    let token = field::<{ Value::WIDTH }>(f, Resource::TOKEN);
    let key = field::<{ Key::WIDTH }>(f, Resource::KEY);
    let time = u64::read(from(f, Resource::TIME));
    let request = ResourceRequest {
        token: &token,
        presented: &key,
        scope: u32::read(from(f, Resource::SCOPE)),
        holder: u64::read(from(f, Resource::HOLDER)),
    };
    resource::resource(ledger, time, request)
}

fn sweep(f: &[u8], ledger: &mut [u8]) -> Swept
    ensures { left result ledger.new ≡ sweep ledger.old (time f.now) }
{
    sweep::sweep(ledger, u64::read(from(f, Sweep::TIME)))
}

// The call that a frame's kind names, and its answer's bytes. Start and client name none, and do nothing.
pub fn call(kind: Kind, f: &[u8], ledger: &mut [u8], table: &[u8]) -> Bytes
    requires { least kind ≤ length f.now }
    ensures { written ledger.new result ≡ called kind f.now ledger.old table.now }
{
    match kind {
        Kind::Push => Bytes::answer(push(f, ledger, table)),
        Kind::Decide => {
            let mut redirect = [0u8; Redirect::MOST];
            let d = decide(f, ledger, &mut redirect);
            Bytes::decided(d, &redirect)
        }
        Kind::Token => Bytes::answer(token(f, ledger, table)),
        Kind::Resource => Bytes::answer(resource(f, ledger)),
        Kind::Sweep => Bytes::swept(sweep(f, ledger)),
        Kind::Start | Kind::Client => Bytes::new(),
    }
}
