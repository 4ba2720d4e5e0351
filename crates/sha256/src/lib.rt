// SHA-256, as FIPS 180-4 defines it: the digest of a slice of any length. The definition is specs/Hash.antt's `sha256`.
// Rests on octets for big-endian numbers and parts, and on std for rotations, sums modulo 2^32 and the pieces of a slice.
#![tactic(auto)]

ghost use Rattle.std.specs.Prelude.{◌≡◌};
ghost use Rattle.sha256.specs.Hash.{sha256};

mod compress;
mod hash;
mod pad;
mod round;
mod schedule;
mod word;

#[tactic(auto, unfolding(crate::specs::Hash::sha256))]
pub fn digest(m: &[u8]) -> [u8; 32]
    ensures { result ≡ sha256 m.now }
{
    hash::joined(hash::hash(m))
}
