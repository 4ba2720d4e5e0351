// One call a line, by the words of the line. Ids, keys and values are one letter repeated; scopes and holders are a digit.
use super::words::{letters, number, rest, word};
use super::{say, table};
use desk::answer::{Answer, Decided};
use desk::request::{DecideRequest, PushRequest, ResourceRequest, TokenRequest};
use std::io;

fn push(line: &[u8], l: &mut [u8], time: u64) -> Answer {
    let [clients, client, key, scope, fresh, _] = letters(line);
    let request = PushRequest {
        client: &[client; 16],
        key: &[key; 32],
        scope: u32::from(scope),
        challenge: word(line, 7),
        redirect: rest(line, 8),
        fresh: &[fresh; 32],
    };
    push::push(l, time, table::first(&table::five(), clients), request)
}

fn decide(line: &[u8], l: &mut [u8], time: u64, out: &mut [u8]) -> Decided {
    let [reference, client, yes, holder, fresh, _] = letters(line);
    let request = DecideRequest {
        reference: &[reference; 32],
        client: &[client; 16],
        yes: yes == b'y',
        holder: u64::from(holder),
        fresh: &[fresh; 32],
    };
    decide::decide(l, time, request, out)
}

fn token(line: &[u8], l: &mut [u8], time: u64) -> Answer {
    let [clients, client, key, presented, code, fresh] = letters(line);
    let request = TokenRequest {
        client: &[client; 16],
        key: &[key; 32],
        presented: &[presented; 32],
        code: &[code; 32],
        verifier: rest(line, 8),
        fresh: &[fresh; 32],
    };
    token::token(l, time, table::first(&table::five(), clients), request)
}

fn resource(line: &[u8], l: &mut [u8], time: u64) -> Answer {
    let [token, presented, scope, holder, _, _] = letters(line);
    let request = ResourceRequest {
        token: &[token; 32],
        presented: &[presented; 32],
        scope: u32::from(scope),
        holder: u64::from(holder),
    };
    resource::resource(l, time, request)
}

#[derive(Clone, Copy)]
enum Call {
    Start,
    Push,
    Decide,
    Token,
    Resource,
    Sweep,
}

const NAMES: [(&[u8], Call); 6] = [
    (b"start", Call::Start),
    (b"push", Call::Push),
    (b"decide", Call::Decide),
    (b"token", Call::Token),
    (b"resource", Call::Resource),
    (b"sweep", Call::Sweep),
];

// A line begins with the name of its call, or is a remark.
fn named(line: &[u8]) -> Option<Call> {
    NAMES
        .iter()
        .find(|(name, _)| line.starts_with(name))
        .map(|(_, call)| *call)
}

// Behind the name a line has the time, and then what the call asks.
pub fn play(rt: &impl Print, line: &[u8], l: &mut [u8]) -> io::Result<()> {
    let Some(call) = named(line) else {
        return Ok(());
    };
    rt.write_all(word(line, 0))?;
    let time = number(line, 1);
    match call {
        Call::Start => say::number(rt, start::start(l))?,
        Call::Push => say::answer(rt, push(line, l, time))?,
        Call::Decide => {
            // Room for 64 bytes and two more, or where the line ends in the word short for one byte less than 64.
            let mut out = [b'.'; 66];
            let room = match word(line, 7) {
                b"short" => 63,
                _ => 66,
            };
            let d = decide(line, l, time, &mut out[..room]);
            say::decided(rt, d, &out[..room])?
        }
        Call::Token => say::answer(rt, token(line, l, time))?,
        Call::Resource => say::answer(rt, resource(line, l, time))?,
        Call::Sweep => say::swept(rt, sweep::sweep(l, time))?,
    }
    say::head(rt, l)
}
