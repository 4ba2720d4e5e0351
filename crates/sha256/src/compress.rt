// The next hash value, from the one before and a block (FIPS 180-4, sections 5.3.3 and 6.2.2).
ghost use Rattle.std.specs.Prelude.{◌≡◌};
ghost use Rattle.sha256.specs.Hash.{added, compress};

use super::round::{Working, rounds};
use super::schedule::schedule;

// The initial hash value, H(0).
pub const INITIAL: [u32; 8] = [
    0x6a09_e667,
    0xbb67_ae85,
    0x3c6e_f372,
    0xa54f_f53a,
    0x510e_527f,
    0x9b05_688c,
    0x1f83_d9ab,
    0x5be0_cd19,
];

#[tactic(auto, unfolding(crate::specs::Hash::added))]
fn added(s: Working, h: &[u32; 8]) -> [u32; 8]
    ensures { result ≡ added s h.now }
{
    [
        s.a.wrapping_add(h[0]),
        s.b.wrapping_add(h[1]),
        s.c.wrapping_add(h[2]),
        s.d.wrapping_add(h[3]),
        s.e.wrapping_add(h[4]),
        s.f.wrapping_add(h[5]),
        s.g.wrapping_add(h[6]),
        s.h.wrapping_add(h[7]),
    ]
}

#[tactic(auto, unfolding(crate::specs::Hash::compress))]
pub fn compress(h: &[u32; 8], b: &[u8; 64]) -> [u32; 8]
    ensures { result ≡ compress h.now b.now }
{
    let w = schedule(b);
    added(rounds(&w, Working::from(*h)), h)
}
