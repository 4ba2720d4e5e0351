// What a line does. `clear` makes all bytes zeros; `put`, a place and bytes writes the bytes there. `ledger` or `table`, a length and a name say
// the verdict of check 1 or 3 on as many bytes; up to two places with their bytes behind the name spoil a copy of them first.
use super::bytes::lay;
use super::words::{behind, number, word};
use clients::table::Table;
use ledger::sound::Soundness;
use std::io;

// How many bytes there are to write on: as many as a ledger of 201 records has.
pub const SPACE: usize = 51488;

fn say(rt: &impl Print, name: &[u8], sound: bool) -> io::Result<()> {
    rt.write_all(name)?;
    if sound {
        rt.write_all(b" sound\n")
    } else {
        rt.write_all(b" unsound\n")
    }
}

// The verdict on the first bytes of a copy of space: their length, a name, and up to two places that are spoiled.
fn judge<F: FnOnce(&[u8]) -> bool>(
    rt: &impl Print,
    asked: [&[u8]; 6],
    space: &[u8; SPACE],
    is_sound: F,
) -> io::Result<()>
    requires { F.IsAlwaysCallable is_sound }
{
    let [length, name, a, xs, b, ys] = asked;
    let mut copy = *space;
    lay(&mut copy, number(a), xs);
    lay(&mut copy, number(b), ys);
    let n = number(length).min(SPACE);
    say(rt, name, is_sound(&copy[..n]))
}

// By its first word, so that a line that asks for nothing is read no further.
pub fn turn(rt: &impl Print, line: &[u8], space: &mut [u8; SPACE]) -> io::Result<()> {
    match word(line, 0) {
        b"clear" => space.fill(0),
        b"put" => lay(space, number(word(line, 1)), word(line, 2)),
        b"ledger" => judge(rt, behind(line), space, |l| {
            matches!(soundness::check(l), Soundness::Sound)
        })?,
        b"table" => judge(rt, behind(line), space, |t| {
            matches!(clients::table::check(t), Table::Sound)
        })?,
        _ => {}
    }
    Ok(())
}
