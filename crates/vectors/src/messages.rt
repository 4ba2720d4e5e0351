// The messages that are made and not written out: a million times the letter a, and the pattern of all lengths.
ghost use Rattle.std.specs.Prelude.{◌≡◌, ◌<◌, replicate};
ghost use Rattle.vectors.specs.Messages.{pattern_at, pattern};

use std::array;

pub fn million() -> [u8; 1000000]
    ensures { result ≡ replicate 1000000 97 }
{
    [b'a'; 1000000]
}

fn pattern_at(i: usize) -> u8
    requires { i < 130 }
    ensures { result ≡ pattern_at i }
{
    ((7 * i + 3) % 256) as u8
}

pub fn pattern() -> [u8; 130]
    ensures { result ≡ pattern 130 }
{
    array::from_fn(pattern_at)
}
