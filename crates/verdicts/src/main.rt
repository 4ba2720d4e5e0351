// Writes the verdicts of checks 1 and 3 on ledgers and client tables that a script makes by hand: sound ones, and each spoiled in one way.
// The script is the file stdin. A line is a name and a verdict; the expected lines are those of another program, tests/runs/verdicts.py, which has them
// from document 01's rules.
#![tactic(auto)]

mod bytes;
mod judge;
mod words;

use judge::SPACE;
use std::io;
use std::io::Read;

// Like the main of plays but for the length that that one keeps: one for both would be longer than the two.
fn main(rt: HostRuntime) -> io::Result<()> {
    // Empty lines fill the buffer up behind a shorter script: they would do nothing, and are cut off.
    let mut script = [0u8; 65536];
    rt.stdin().chain(io::repeat(b'\n')).read_exact(&mut script)?;
    let end = script
        .iter()
        .rposition(|b| *b != b'\n')
        .map_or(0, |last| last + 1);
    let mut space = [0u8; SPACE];
    for line in script[..end].split(|b| *b == b'\n') {
        judge::turn(&rt, line, &mut space)?;
    }
    Ok(())
}
