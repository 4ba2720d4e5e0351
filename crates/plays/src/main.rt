// Plays a script of calls through the desk, and writes a line a call: its name, its answer, and the clock and next number of the ledger that it leaves.
// The script is the file stdin. The expected lines are those of tests/runs/plays.py, which has them from documents 01 and 02.
#![tactic(auto)]

mod calls;
mod say;
mod table;
mod words;

use ledger::clock::set_next;
use std::io;
use std::io::Read;

// What a line does: `ledger` with a length and a letter fills a ledger anew at the front of space, `next` with a number sets the next number of the one of
// n bytes that is there, and any other line is played on it. Answers the length of the ledger afterwards.
fn turn(rt: &impl Print, line: &[u8], space: &mut [u8], n: usize) -> io::Result<usize> {
    if line.starts_with(b"ledger") {
        // By `as`: std has no From between u64 and usize.
        let length = words::number(line, 1) as usize;
        if let Some(ledger) = space.get_mut(..length) {
            ledger.fill(words::letter(line, 2));
        }
        return Ok(length);
    }
    if let Some(ledger) = space.get_mut(..n) {
        if line.starts_with(b"next") {
            set_next(ledger, words::number(line, 1));
        } else {
            calls::play(rt, line, ledger)?;
        }
    }
    Ok(n)
}

// Like the main of verdicts but for the length that it keeps: one for both would be longer than the two.
fn main(rt: HostRuntime) -> io::Result<()> {
    // Empty lines fill the buffer up behind a shorter script: they would do nothing, and are cut off.
    let mut script = [0u8; 65536];
    rt.stdin().chain(io::repeat(b'\n')).read_exact(&mut script)?;
    let end = script
        .iter()
        .rposition(|b| *b != b'\n')
        .map_or(0, |last| last + 1);
    // A length, since a part of space that is kept from line to line and lent anew in some would have two lifetimes, which is not proved yet.
    let mut space = [0u8; 51488];
    let mut n = 0;
    for line in script[..end].split(|b| *b == b'\n') {
        n = turn(&rt, line, &mut space, n)?;
    }
    Ok(())
}
