// What a line says behind its name: the answer, and the head of the ledger.
use desk::answer::{Answer, Decided, Swept};
use ledger::clock::{clock, next_number};
use std::io;

pub fn number(rt: &impl Print, number: u8) -> io::Result<()> {
    print!(rt; ": {number}")
}

pub fn answer(rt: &impl Print, a: Answer) -> io::Result<()> {
    print!(rt;
        ": {} grant {} holder {} scope {} expiry {}",
        a.number, a.grant, a.holder, a.scope, a.expiry
    )
}

pub fn swept(rt: &impl Print, s: Swept) -> io::Result<()> {
    print!(rt;
        ": {} pushed {} consented {} redeemed {}",
        s.number, s.pushed, s.consented, s.redeemed
    )
}

// A byte of the output as a line shows it: a zero byte as an underscore.
fn shown(b: u8) -> u8 {
    if b == 0 { b'_' } else { b }
}

pub fn decided(rt: &impl Print, d: Decided, out: &[u8]) -> io::Result<()> {
    answer(rt, d.answer)?;
    print!(rt; " length {} output ", d.length)?;
    for b in out {
        rt.write_all(&[shown(*b)])?;
    }
    Ok(())
}

// The clock and the next number of the ledger that a call leaves, and the line's end.
pub fn head(rt: &impl Print, l: &[u8]) -> io::Result<()> {
    println!(rt; "; clock {} next {}", clock(l), next_number(l))
}
