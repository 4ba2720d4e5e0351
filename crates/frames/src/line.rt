// A line of the input: hexadecimal, a frame, and its answer's line.
ghost use Rattle.std.specs.Prelude.{◌≡◌, ◌≤◌, length};
ghost use Rattle.octets.specs.Parts.{laid};
ghost use Rattle.frames.specs.Limits.{answer_line};
ghost use Rattle.frames.specs.Line.{line_of};
ghost use Rattle.frames.specs.Serve.{serve_line};
ghost use Rattle.frames.specs.Hold.{desk_in, placed, place, said, answer};

use super::answer::Bytes;
use super::kind::serve;
use super::limit::{Answer, Buffer, Frame, Line};
use super::served::Served;
use super::used::Used;
use texts::hex::decode;
use wire::answer::Said;

// An answer's line, over the front of the output, and its length.
#[tactic(auto, using(texts::proofs::Hexes::length_hex, crate::proofs::Lines::length_line))]
fn write_line(out: &mut [u8], answer: &Bytes) -> usize
    requires { answer_line ≤ length out.old }
    ensures out_after { out.new ≡ laid (line_of answer.now) out.old }
    ensures count_value { result ≡ length (line_of answer.now) }
    ensures count_in_bounds { result ≤ answer_line }
{
    let end = texts::hex::write(out, 0, answer.as_slice());
    out[end] = Line::END;
    end + 1
}

// A line of the input: what is no line of hexadecimal, or too long, is no frame.
fn serve_line(
    line: &[u8],
    used: &mut Used,
    ledger: &mut [u8; Buffer::LEDGER],
    table: &mut [u8; Buffer::TABLE],
) -> Bytes
    ensures { placed used.new.ledger used.new.table ledger.new table.new result ≡ place (serve_line line.now (desk_in used.old.ledger used.old.table ledger.old table.old)) ledger.old table.old }
{
    let mut bytes = [0u8; Frame::MOST];
    if Line::MOST < line.len() || !decode(&mut bytes, line) {
        return Bytes::number(Said::NO_FRAME);
    }
    serve(&bytes[..line.len() / 2], used, ledger, table)
}

// A line of the input in its buffers: n bytes of the ledger's and m of the table's are in use. Where a buffer has not its size, a length in use is not within
// it, or the output has no room for every answer's line, the line is not served, and nothing changes.
// It promises so for all buffers and lengths, so they stay slices and numbers here; what fits goes on as arrays and `Used`.
pub fn answer(
    line: &[u8],
    n: usize,
    m: usize,
    ledger: &mut [u8],
    table: &mut [u8],
    out: &mut [u8],
) -> Served
    ensures out_after { said result.ledger result.table result.count ledger.new table.new out.new ≡ answer line.now n m ledger.old table.old out.old }
    ensures count_in_bounds { result.count ≤ length out.old }
{
    let Some(mut used) = Used::within(n, m) else {
        return Served::with(n, m, 0);
    };
    let Some(ledger) = ledger.as_mut_array() else {
        return Served::with(n, m, 0);
    };
    let Some(table) = table.as_mut_array() else {
        return Served::with(n, m, 0);
    };
    if out.len() < Answer::LINE {
        return Served::with(n, m, 0);
    }
    let answer = serve_line(line, &mut used, ledger, table);
    let count = write_line(out, &answer);
    Served::with(used.ledger, used.table, count)
}
