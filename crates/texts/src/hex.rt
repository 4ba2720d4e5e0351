// Hexadecimal, two digits a byte: either case in, lower case out (RFC 4648, section 8).
ghost use Rattle.std.specs.Prelude.{◌≡◌, true, ◌*◌, ◌+◌, ◌<◌, length};
ghost use Rattle.octets.specs.Parts.{laid, put};
ghost use Rattle.texts.specs.Hex.{is_digit, digit, is_hex, pair_at, decoded, decoded_over, glyph, glyph_at, hex};

use super::spelling::lay;

// What a digit of either case stands for. The text has been tested, so no digit is tested once more.
#[tactic(auto, unfolding(crate::specs::Hex::is_digit, crate::specs::Hex::digit))]
fn digit(c: u8) -> u8
    requires { is_digit c ≡ true }
    ensures { (result ≡ digit c) × (result < 16) }
{
    match c {
        ..=b'9' => c - b'0',
        ..=b'F' => c - b'A' + 10,
        _ => c - b'a' + 10,
    }
}

pub fn is_hex(text: &[u8]) -> bool
    ensures { result ≡ is_hex text.now }
{
    text.len() % 2 == 0 && text.iter().all(u8::is_ascii_hexdigit)
}

#[tactic(auto, using(crate::proofs::Digits::hex_at), unfolding(crate::specs::Hex::pair_at))]
fn pair_at(text: &[u8], i: usize) -> u8
    requires { (is_hex text.now ≡ true) × (2 * i + 1 < length text.now) }
    ensures { result ≡ pair_at text.now i }
{
    16 * digit(text[2 * i]) + digit(text[2 * i + 1])
}

// The bytes over the front of the output.
fn read(out: &mut [u8], text: &[u8])
    requires { is_hex text.now ≡ true }
    ensures { out.new ≡ laid (decoded text.now) out.old }
{
    lay(out, 0, text.len() / 2, |i| pair_at(text, i));
}

// Whether a text is hexadecimal; where it is, its bytes are laid over the front of the output, and where not, nothing is written: the answer is a
// bool, since there is nothing to hand out.
#[tactic(auto, unfolding(crate::specs::Hex::decoded_over))]
pub fn decode(out: &mut [u8], text: &[u8]) -> bool
    ensures { (result ≡ is_hex text.now) × (out.new ≡ decoded_over text.now out.old) }
{
    if !is_hex(text) {
        return false;
    }
    read(out, text);
    true
}

#[tactic(auto, unfolding(crate::specs::Hex::glyph))]
fn glyph(d: u8) -> u8
    requires { d < 16 }
    ensures { result ≡ glyph d }
{
    match d {
        0..=9 => b'0' + d,
        _ => b'a' + (d - 10),
    }
}

#[tactic(auto, unfolding(crate::specs::Hex::glyph_at))]
fn glyph_at(bytes: &[u8], j: usize) -> u8
    requires { j < 2 * length bytes.now }
    ensures { result ≡ glyph_at bytes.now j }
{
    let b = bytes[j / 2];
    if j % 2 == 0 {
        glyph(b / 16)
    } else {
        glyph(b % 16)
    }
}

// The digits of the bytes, over the output from a place on.
pub fn write(out: &mut [u8], at: usize, bytes: &[u8]) -> usize
    ensures { (result ≡ length (hex bytes.now)) × (out.new ≡ put out.old at (hex bytes.now)) }
{
    let n = 2 * bytes.len();
    lay(out, at, n, |j| glyph_at(bytes, j));
    n
}
