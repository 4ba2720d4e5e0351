// What is told of a failure: a line, with the system's words for the error.
ghost use Rattle.std.specs.Prelude.{◌≡◌, ℕ, List, [], ◌∷◌, ◌++◌, take, OnOk};
ghost use Rattle.std.specs.Io.KnownBytes.{Appends};

use std::io;
use std::io::{Cursor, Write};

// As much of an error's text is told: the system's are shorter.
const LONGEST: usize = 120;

// What an error's number is printed behind.
const NUMBER: &[u8] = b" (os error ";

// The words alone.
fn words(text: &[u8]) -> &[u8]
    ensures { (n : ℕ) × (result.now ≡ take n text.now) }
{
    let end = text.windows(NUMBER.len()).position(|part| part == NUMBER);
    &text[..end.unwrap_or(text.len())]
}

// A line of what failed, as the caller names it, a colon and a space, and the words: printed as a whole, an error has its number behind them.
pub fn fail<W: Write>(to: &mut W, what: &[u8], error: io::Error) -> io::Result<()>
    ensures { OnOk result ((words : List ℕ) × Appends (W.contents to.old) (W.contents to.new) (what.now ++ 58 ∷ 32 ∷ [] ++ words ++ 10 ∷ [])) }
{
    let mut text = Cursor::new([0u8; LONGEST]);
    let _ = write!(text, "{error}");
    // By `as`: std has no From between u64 and usize.
    let filled = text.position() as usize;
    let text = text.into_inner();
    to.write_all(what)?;
    to.write_all(b": ")?;
    to.write_all(words(&text[..filled.min(text.len())]))?;
    to.write_all(b"\n")
}
