// How long a reference lives, by the record of the client that pushes (document 02, Q-2).
ghost use Rattle.std.specs.Prelude.{◌≡◌};
ghost use Rattle.clients.specs.Limits.{reference_lifetime, lifetime_most};
ghost use Rattle.clients.specs.Fields.{lifetime_said};
ghost use Rattle.clients.specs.Lifetime.{lifetime_of};
ghost use Rattle.clients.specs.Sound.{lifetime_fits};

use super::record::Field;
use octets::number::Number;

#[derive(Clone, Copy)]
pub struct Reference {}

impl Reference {
    // For a client whose record says 0.
    pub const LIFETIME: u64 = 90;

    // The most that a record may say.
    pub const MOST: u64 = 599;

    // A function to each constant: public, with a promise of its own (docs/OUTCOMES.md), which ties it to its definition.
    pub fn lifetime() -> u64
        ensures { result ≡ reference_lifetime }
    {
        Reference::LIFETIME
    }

    pub fn most() -> u64
        ensures { result ≡ lifetime_most }
    {
        Reference::MOST
    }
}

#[tactic(auto, using(octets::proofs::Spans::field_read))]
// By the name of its field, as the ledger's fields are read.
fn said(c: &[u8]) -> u64
    ensures { result ≡ lifetime_said c.now }
{
    u64::from(u16::read(Field::LIFETIME.of(c)))
}

#[tactic(auto, unfolding(crate::specs::Sound::lifetime_fits))]
pub fn fits(c: &[u8]) -> bool
    ensures { result ≡ lifetime_fits c.now }
{
    said(c) <= Reference::MOST
}

#[tactic(auto, unfolding(crate::specs::Lifetime::lifetime_of))]
pub fn lifetime_of(c: &[u8]) -> u64
    ensures { result ≡ lifetime_of c.now }
{
    match said(c) {
        0 => Reference::LIFETIME,
        seconds => seconds,
    }
}
