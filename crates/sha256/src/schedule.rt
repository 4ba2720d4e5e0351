// The message schedule of a block (FIPS 180-4, section 6.2.2, step 1), held as sixty-four words.
ghost use Rattle.std.specs.Prelude.{◌≡◌, ◌<◌, ◌≤◌, take};
ghost use Rattle.octets.specs.Lists.{tabulate};
ghost use Rattle.sha256.specs.Pad.{word_at};
ghost use Rattle.sha256.specs.Schedule.{next, schedule};

use super::word::{small0, small1};

// The block's sixteen words, and room for the rest of the schedule.
fn first_words(b: &[u8; 64]) -> [u32; 64]
    ensures { take 16 result ≡ tabulate (word_at b.now) 16 }
{
    let mut w = [0u32; 64];
    for (t, bytes) in b.as_chunks::<4>().0.iter().enumerate() {
        w[t] = u32::from_be_bytes(*bytes);
    }
    w
}

// The word t, from those before it.
#[tactic(auto, unfolding(crate::specs::Schedule::next))]
fn next(w: &[u32; 64], t: usize) -> u32
    requires { (16 ≤ t) × (t < 64) }
    ensures { result ≡ next w.now t }
{
    small1(w[t - 2])
        .wrapping_add(w[t - 7])
        .wrapping_add(small0(w[t - 15]))
        .wrapping_add(w[t - 16])
}

pub fn schedule(b: &[u8; 64]) -> [u32; 64]
    ensures { result ≡ schedule b.now }
{
    let mut w = first_words(b);
    for t in 16..64 {
        w[t] = next(&w, t);
    }
    w
}
