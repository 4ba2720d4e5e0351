// Decimal: the digits of a number, without leading zeros.
ghost use Rattle.std.specs.Prelude.{◌≡◌, ◌+◌, ◌<◌, length, drop};
ghost use Rattle.octets.specs.Parts.{put};
ghost use Rattle.texts.specs.Decimal.{decimal, decimal_most};

use octets::part::put;

#[derive(Clone, Copy)]
pub struct Decimal {}

impl Decimal {
    pub const MOST: usize = 20;

    // A function to each constant: public, with a promise of its own (docs/OUTCOMES.md), which ties it to its definition.
    pub fn most() -> usize
        ensures { result ≡ decimal_most }
    {
        Decimal::MOST
    }
}

fn glyph(d: u64) -> u8
    requires { d < 10 }
    ensures { result ≡ 48 + d }
{
    b'0' + d as u8
}

// The digits at the end of a text, the last first; answers where they begin. By hand: an output may end within the number, where write! stops with an error.
fn spell(text: &mut [u8; Decimal::MOST], n: u64) -> usize
    ensures { (result + length (decimal n) ≡ decimal_most) × (drop result text.new ≡ decimal n) }
{
    let mut rest = n;
    for at in (0..Decimal::MOST).rev() {
        text[at] = glyph(rest % 10);
        if rest < 10 {
            return at;
        }
        rest /= 10;
    }
    unreachable!()
}

// The digits of a number, over the output from a place on.
pub fn write(out: &mut [u8], at: usize, n: u64) -> usize
    ensures { (result ≡ length (decimal n)) × (out.new ≡ put out.old at (decimal n)) }
{
    let mut text = [0u8; Decimal::MOST];
    let from = spell(&mut text, n);
    put(out, at, &text[from..]);
    Decimal::MOST - from
}
