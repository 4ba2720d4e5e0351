// Writes the SHA-256 digests of outside vectors, a line a message: its label, then the digest in hexadecimal and in base64url.
// The expected lines are those of another program, tests/runs/vectors.py.
#![tactic(auto)]

mod digests;
mod messages;

use digests::{digest_hex, digest_text};
use messages::{million, pattern};
use std::io;

// The texts of a message's digest, a column each.
fn columns(rt: &impl Print, m: &[u8]) -> io::Result<()> {
    rt.write_all(b" ")?;
    rt.write_all(&digest_hex(m))?;
    rt.write_all(b" ")?;
    rt.write_all(&digest_text(m))?;
    println!(rt)
}

fn show(rt: &impl Print, label: &str, m: &[u8]) -> io::Result<()> {
    print!(rt; "{label}")?;
    columns(rt, m)
}

// The examples of FIPS 180-4.
fn examples(rt: &impl Print) -> io::Result<()> {
    show(rt, "fips-empty", b"")?;
    show(rt, "fips-abc", b"abc")?;
    show(
        rt,
        "fips-448",
        b"abcdbcdecdefdefgefghfghighijhijkijkljklmklmnlmnomnopnopq",
    )?;
    show(
        rt,
        "fips-896",
        b"abcdefghbcdefghicdefghijdefghijkefghijklfghijklmghijklmnhijklmnoijklmnopjklmnopqklmnopqrlmnopqrsmnopqrstnopqrstu",
    )?;
    show(rt, "fips-million", &million())
}

// The verifier of RFC 7636, Appendix B.
fn verifier(rt: &impl Print) -> io::Result<()> {
    show(
        rt,
        "rfc7636-verifier",
        b"dBjftJeZ4CVP-mB92K27uhbUJU1p1r_wW1gFWFOEjXk",
    )
}

// The beginnings of the pattern, of every length.
fn lengths(rt: &impl Print) -> io::Result<()> {
    let p = pattern();
    for n in 0..=p.len() {
        print!(rt; "length-{n}")?;
        columns(rt, &p[..n])?;
    }
    Ok(())
}

fn main(rt: HostRuntime) -> io::Result<()> {
    examples(&rt)?;
    verifier(&rt)?;
    lengths(&rt)
}
