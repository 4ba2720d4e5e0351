// Big-endian numbers of 2, 4 and 8 bytes, read from the front of a part and written to it.
ghost use Rattle.std.specs.Prelude.{◌≡◌, ℕ, ◌≤◌, ◌<◌, ◌^◌, length, take};
ghost use Rattle.octets.specs.Numbers.{num, digits};
ghost use Rattle.octets.specs.Parts.{laid};

use super::part::put;
use std::convert::AsSlice;

// A number of a fixed width. Its bytes are the highest first.
pub trait Number: Copy {
    // The array of its bytes.
    type Bytes: Copy + AsSlice<u8>;

    // How many bytes it has.
    ghost width: { ℕ };

    ghost value: { Self → ℕ };

    // The number of the first bytes of s: of all, where they are fewer than it has.
    fn read(s: &[u8]) -> Self
        ensures { value result ≡ num (take width s.now) };

    fn bytes(self) -> Self::Bytes
        ensures { Self.Bytes.items result ≡ digits width (value self) };

    // Lays the bytes over the front of s, as many as there is room for.
    #[tactic(auto, unfolding(crate::specs::Parts::put))]
    final fn write(self, s: &mut [u8])
        ensures { s.new ≡ laid (digits width (value self)) s.old }
    {
        put(s, 0, self.bytes().as_slice());
    }
}

// The number of all bytes of a short slice: what is left when a field is cut off. Its callers cut it to their width by `as`: std has no From for that.
fn short(s: &[u8]) -> u64
    requires { length s.now ≤ 8 }
    ensures number { result ≡ num s.now }
    ensures fits { result < 256 ^ length s.now }
{
    let mut n: u64 = 0;
    for x in s {
        n = n * 256 + u64::from(*x);
    }
    n
}

impl Number for u16 {
    type Bytes = [u8; 2];

    ghost width = { 2 };

    ghost value = { λ n. n };

    fn read(s: &[u8]) -> u16 {
        let Some(front) = s.first_chunk::<2>() else {
            return short(s) as u16;
        };
        // Each byte by its place, here and below, so that their order is a value that a must-fail edit can change.
        u16::from_be_bytes([front[0], front[1]])
    }

    fn bytes(self) -> [u8; 2] {
        self.to_be_bytes()
    }
}

impl Number for u32 {
    type Bytes = [u8; 4];

    ghost width = { 4 };

    ghost value = { λ n. n };

    fn read(s: &[u8]) -> u32 {
        let Some(front) = s.first_chunk::<4>() else {
            return short(s) as u32;
        };
        u32::from_be_bytes([front[0], front[1], front[2], front[3]])
    }

    fn bytes(self) -> [u8; 4] {
        self.to_be_bytes()
    }
}

impl Number for u64 {
    type Bytes = [u8; 8];

    ghost width = { 8 };

    ghost value = { λ n. n };

    fn read(s: &[u8]) -> u64 {
        let Some(front) = s.first_chunk::<8>() else {
            return short(s);
        };
        u64::from_be_bytes([
            front[0], front[1], front[2], front[3], front[4], front[5], front[6], front[7],
        ])
    }

    fn bytes(self) -> [u8; 8] {
        self.to_be_bytes()
    }
}
