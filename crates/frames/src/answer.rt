// What an answer is in bytes.
ghost use Rattle.std.specs.Prelude.{◌≡◌, ◌+◌, ◌≤◌, ◌++◌, [], List, ℕ, length, take};
ghost use Rattle.octets.specs.Numbers.{digits};
ghost use Rattle.wire.specs.Answers.{answer_most, number_bytes, swept_bytes, answer_bytes, decided_bytes};

use desk::answer::{Answer, Decided, Swept};
use forms::Redirect;
use octets::number::Number;
use octets::part::{cut, put};
use wire::answer::{Said, bytes};

// An answer's bytes, at the front of a buffer that has room for the longest. A clause sees the bytes alone.
#[derive(Drop)]
pub struct Bytes {
    buffer: [u8; Said::MOST],
    count: usize,
}

impl std::marker::Model for Bytes {
    ghost Value = { List ℕ };

    ghost view = { λ b. take b.count b.buffer };

    ghost invariant = { λ b. b.count ≤ answer_most };
}

impl Bytes {
    pub fn new() -> Bytes
        ensures { result ≡ [] }
    {
        Bytes {
            buffer: [0u8; Said::MOST],
            count: 0,
        }
    }

    fn append(&mut self, xs: &[u8])
        requires { length self.old + length xs.now ≤ answer_most }
        ensures { self.new ≡ self.old ++ xs.now }
    {
        put(&mut self.buffer, self.count, xs);
        self.count += xs.len();
    }

    pub fn as_slice(&self) -> &[u8]
        ensures value { result.now ≡ self.now }
        ensures length_in_bounds { length result.now ≤ answer_most }
    {
        &self.buffer[..self.count]
    }

    pub fn number(n: u8) -> Bytes
        ensures { result ≡ number_bytes n }
    {
        let mut out = Bytes::new();
        out.append(&[n]);
        out
    }

    pub fn answer(a: Answer) -> Bytes
        ensures { result ≡ answer_bytes a }
    {
        let mut out = Bytes::new();
        out.append(&bytes(a));
        out
    }

    // The answer, the redirect's length and as many of its bytes, which lie at the front of the redirect's buffer.
    pub fn decided(d: Decided, redirect: &[u8; Redirect::MOST]) -> Bytes
        ensures { result ≡ decided_bytes d redirect.now }
    {
        let mut out = Bytes::answer(d.answer);
        out.append(&[d.length]);
        out.append(cut(redirect, 0, usize::from(d.length)));
        out
    }

    #[tactic(auto, using(crate::proofs::Answers::counted))]
    pub fn swept(s: Swept) -> Bytes
        ensures { result ≡ swept_bytes s }
    {
        let mut out = Bytes::number(s.number);
        out.append(&short(s.pushed));
        out.append(&short(s.consented));
        out.append(&short(s.redeemed));
        out
    }
}

// A count in two bytes.
#[tactic(auto, using(crate::proofs::Answers::short_digits))]
fn short(n: usize) -> [u8; 2]
    ensures { result ≡ digits 2 n }
{
    ((n % 65536) as u16).bytes()
}
