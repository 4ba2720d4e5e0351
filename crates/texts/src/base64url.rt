// base64url with no padding (RFC 4648, section 5).
ghost use Rattle.std.specs.Prelude.{◌≡◌, ◌+◌, ◌*◌, ◌/◌, ◌<◌, length, get_or};
ghost use Rattle.octets.specs.Parts.{put};
ghost use Rattle.texts.specs.Base64url.{letter, characters, character_at, base64url};

use super::spelling::lay;

// The character of six bits.
#[tactic(auto, unfolding(crate::specs::Base64url::letter))]
fn letter(v: u32) -> u8
    requires { v < 64 }
    ensures { result ≡ letter v }
{
    match v {
        0..=25 => b'A' + v as u8,
        26..=51 => b'a' + (v - 26) as u8,
        52..=61 => b'0' + (v - 52) as u8,
        62 => b'-',
        _ => b'_',
    }
}

// The four characters of three bytes.
#[tactic(auto, unfolding(crate::specs::Base64url::characters))]
fn characters(x: u8, y: u8, z: u8) -> [u8; 4]
    ensures { result ≡ characters x y z }
{
    let n = u32::from(x) * 0x1_0000 + u32::from(y) * 0x100 + u32::from(z);
    [
        letter(n / 0x4_0000 % 64),
        letter(n / 0x1000 % 64),
        letter(n / 64 % 64),
        letter(n % 64),
    ]
}

// A byte, or zero behind the last one.
fn byte_at(bytes: &[u8], i: usize) -> u8
    ensures { result ≡ get_or bytes.now i 0 }
{
    bytes.get(i).copied().unwrap_or(0)
}

#[tactic(auto, unfolding(crate::specs::Base64url::character_at))]
fn character_at(bytes: &[u8], j: usize) -> u8
    ensures { result ≡ character_at bytes.now j }
{
    let k = j / 4 * 3;
    let group = characters(
        byte_at(bytes, k),
        byte_at(bytes, k + 1),
        byte_at(bytes, k + 2),
    );
    group[j % 4]
}

// How many characters a text of n bytes has.
fn characters_of(n: usize) -> usize
    requires { n < 0x8000_0000_0000_0000 }
    ensures { result ≡ (4 * n + 2) / 3 }
{
    n + n.div_ceil(3)
}

// The text of the bytes, over the output from a place on.
pub fn write(out: &mut [u8], at: usize, bytes: &[u8]) -> usize
    ensures { (result ≡ length (base64url bytes.now)) × (out.new ≡ put out.old at (base64url bytes.now)) }
{
    let n = characters_of(bytes.len());
    lay(out, at, n, |j| character_at(bytes, j));
    n
}
