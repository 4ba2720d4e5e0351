// The blocks of a padded message that hold padding (FIPS 180-4, sections 5.1.1 and 5.2.1), and how many blocks there are.
ghost use Rattle.std.specs.Prelude.{◌≡◌, ◌<◌};
ghost use Rattle.sha256.specs.Pad.{pad, blocks, block, marked, window};

use octets::number::Number;
use octets::part::{copy, from, put};

// The 64 bytes of a message from index a on, zeros behind its end.
#[tactic(auto, unfolding(octets::specs::Parts::blank))]
fn tail(m: &[u8], a: usize) -> [u8; 64]
    ensures { result ≡ window m.now a }
{
    let mut b = [0u8; 64];
    copy(&mut b, from(m, a));
    b
}

// The same of the message and its mark.
#[tactic(auto, using(crate::proofs::Padding::mark_put, crate::proofs::Padding::mark_none))]
fn marked(m: &[u8], a: usize) -> [u8; 64]
    ensures { result ≡ window (marked m.now) a }
{
    let n = m.len();
    let mut b = tail(m, a);
    if n < a {
        return b;
    }
    put(&mut b, n - a, &[0x80]);
    b
}

// The block k of the padded message: the length stands at the end of the last one.
#[tactic(auto, using(crate::proofs::Padding::blocks_of, crate::proofs::Padding::block_inner, crate::proofs::Padding::block_last))]
pub fn block(m: &[u8], k: usize) -> [u8; 64]
    requires { k < blocks m.now }
    ensures { result ≡ block (pad m.now) k }
{
    let mut b = marked(m, 64 * k);
    if k + 1 < blocks(m) {
        return b;
    }
    // By `as`: std has no From between usize and u64.
    put(&mut b, 56, &((m.len() as u64) << 3).bytes());
    b
}

// How many blocks the padded message has.
#[tactic(auto, using(crate::proofs::Padding::blocks_of))]
pub fn blocks(m: &[u8]) -> usize
    ensures { result ≡ blocks m.now }
{
    (m.len() + 8) / 64 + 1
}
