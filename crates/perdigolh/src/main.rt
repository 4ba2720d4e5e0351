// The line program: standard input is read as it comes, handed to lines, and what that puts out is written before more is read. `hand` is the one place that
// writes and `serve_some` the one that reads. A failed read or write ends the program, and is told on standard error.
#![tactic(auto)]

ghost use Rattle.std.specs.Prelude.{◌≡◌, ℕ, ◌+◌, ◌%◌, ◌^◌, ◌<◌, ◌≤◌, ◌↔◌, [], length, take, IfOk, IfSome, IfNone, IsTrue, OnOk, OnErr, IsOk};
ghost use Rattle.std.specs.IoError.{error_kind};
ghost use Rattle.std.specs.Io.KnownBytes.{Appends, Consumes, IsAtEnd};
ghost use Rattle.lines.specs.Feed.{feed, finish};
ghost use Rattle.lines.specs.Run.{puts, pass_on};
ghost use Rattle.lines.specs.Lines.{run};
ghost use Rattle.perdigolh.specs.Chunk.{kept, LeavesAs, EndsAs, RunsAs, RunsOn, Begins, StepWritesFront, WritesFront};

mod tell;

use frames::limit::{Buffer, Line};
use lines::feed::{State, feed, finish};
use std::io;
use std::io::{ErrorKind, Read, Write};

// As much is read at once, and put out before it is written.
const CHUNK: usize = 65536;

// What ended the program before the input did.
#[derive(Clone, Copy)]
enum Failure {
    Input(io::Error),
    Output(io::Error),
}

// All of the bytes, in as many writes as they take. A write that takes nothing has failed, and so has one that a signal interrupted: the library's `write_all`
// tries that again, and does not say what a failure leaves.
fn write_whole<W: Write>(writer: &mut W, bytes: &[u8]) -> io::Result<()>
    ensures whole { OnOk result (Appends (W.contents writer.old) (W.contents writer.new) bytes.now) }
    ensures front { OnErr result ((n : ℕ) × (n < length bytes.now) × Appends (W.contents writer.old) (W.contents writer.new) (take n bytes.now)) }
{
    let mut rest = bytes;
    while !rest.is_empty() {
        match writer.write(rest)? {
            0 => return Err(io::Error::from(ErrorKind::WriteZero)),
            n => rest = &rest[n..],
        }
    }
    Ok(())
}

// The bytes are counted, modulo 2^64, and written.
fn hand<W: Write>(writer: &mut W, bytes: &[u8], handed: &mut usize) -> Result<(), Failure>
    ensures count_value { handed.new ≡ (handed.old + length bytes.now) % 2 ^ 64 }
    ensures whole { OnOk result (Appends (W.contents writer.old) (W.contents writer.new) bytes.now) }
    ensures front { Begins (W.contents writer.old) (W.contents writer.new) bytes.now }
{
    *handed = handed.wrapping_add(bytes.len());
    write_whole(writer, bytes).map_err(Failure::Output)
}

// What was read where a read failed: nothing, where a signal interrupted it, and it is tried again.
fn failed(error: io::Error) -> Result<usize, Failure>
    ensures unchanged { IfOk result (λ n. n ≡ 0) }
    ensures again { IsOk result ↔ (error_kind error ≡ ErrorKind.Interrupted) }
{
    if error.kind() == ErrorKind::Interrupted {
        return Ok(0);
    }
    Err(Failure::Input(error))
}

// What is kept from read to read: the lengths in use, the buffers, and how many bytes were handed on to be written, modulo 2^64.
#[derive(Drop)]
struct Desk {
    state: State,
    line: [u8; Line::KEPT],
    ledger: [u8; Buffer::LEDGER],
    table: [u8; Buffer::TABLE],
    out: [u8; CHUNK],
    handed: usize,
}

impl Desk {
    // What is left of a chunk, once: its answers, at the front of the output's buffer, are handed on. The result is how much of it was taken.
    fn pass<W: Write>(&mut self, writer: &mut W, chunk: &[u8]) -> Result<usize, Failure>
        ensures out_after { EndsAs (feed (kept self.old) chunk.now self.old.out) self.old self.new }
        ensures taken { IfOk result (λ n. n ≡ (feed (kept self.old) chunk.now self.old.out).taken) }
        ensures taken_in_bounds { ((feed (kept self.old) chunk.now self.old.out).taken ≤ length chunk.now) × ((feed (kept self.old) chunk.now self.old.out).filled ≤ length self.new.out) }
        ensures written { OnOk result (Appends (W.contents writer.old) (W.contents writer.new) (puts (feed (kept self.old) chunk.now self.old.out))) }
        ensures front { Begins (W.contents writer.old) (W.contents writer.new) (puts (feed (kept self.old) chunk.now self.old.out)) }
    {
        let fed = feed(
            chunk,
            self.state,
            &mut self.line,
            &mut self.ledger,
            &mut self.table,
            &mut self.out,
        );
        self.state = fed.state;
        hand(writer, &self.out[..fed.filled], &mut self.handed)?;
        Ok(fed.taken)
    }

    // A chunk of the input: handed over and its answers written, until all of it is taken, in as many calls at most as it has bytes.
    fn pass_on<W: Write>(&mut self, writer: &mut W, chunk: &[u8]) -> Result<(), Failure>
        ensures leaves_as { OnOk result (LeavesAs (pass_on (length chunk.now) (kept self.old) self.old.out chunk.now) self.old self.new) }
        ensures written { OnOk result (Appends (W.contents writer.old) (W.contents writer.new) (pass_on (length chunk.now) (kept self.old) self.old.out chunk.now).written) }
        ensures front { Begins (W.contents writer.old) (W.contents writer.new) (pass_on (length chunk.now) (kept self.old) self.old.out chunk.now).written }
    {
        let mut rest = chunk;
        for _ in 0..chunk.len() {
            if rest.is_empty() {
                break;
            }
            let taken = self.pass(writer, rest)?;
            rest = &rest[taken..];
        }
        Ok(())
    }

    // The end of the input: a line that is begun is answered, and the answer handed on.
    fn end<W: Write>(&mut self, writer: &mut W) -> Result<(), Failure>
        ensures out_after { EndsAs (finish (kept self.old) self.old.out) self.old self.new }
        ensures handed_in_bounds { (finish (kept self.old) self.old.out).filled ≤ length self.new.out }
        ensures written { OnOk result (Appends (W.contents writer.old) (W.contents writer.new) (puts (finish (kept self.old) self.old.out))) }
        ensures front { Begins (W.contents writer.old) (W.contents writer.new) (puts (finish (kept self.old) self.old.out)) }
    {
        let fed = finish(
            self.state,
            &mut self.line,
            &mut self.ledger,
            &mut self.table,
            &mut self.out,
        );
        self.state = fed.state;
        hand(writer, &self.out[..fed.filled], &mut self.handed)
    }

    // One read, as much as there is: what it put at the front of the input's buffer is passed on. The result is how many bytes that is, or nothing where the
    // input has come to its end.
    fn serve_some<R: Read, W: Write>(
        &mut self,
        reader: &mut R,
        writer: &mut W,
        input: &mut [u8],
    ) -> Result<Option<usize>, Failure>
        ensures leaves_as { IfOk result (λ got. IfSome got (λ n. LeavesAs (pass_on (length (take n input.new)) (kept self.old) self.old.out (take n input.new)) self.old self.new)) }
        ensures ends_as { IfOk result (λ got. IfNone got (EndsAs (finish (kept self.old) self.old.out) self.old self.new)) }
        ensures read { IfOk result (λ got. IfSome got (λ n. Consumes (R.remaining reader.old) (R.remaining reader.new) (take n input.new))) }
        ensures written { IfOk result (λ got. IfSome got (λ n. Appends (W.contents writer.old) (W.contents writer.new) (pass_on (length (take n input.new)) (kept self.old) self.old.out (take n input.new)).written)) }
        ensures last { IfOk result (λ got. IfNone got (Appends (W.contents writer.old) (W.contents writer.new) (puts (finish (kept self.old) self.old.out)))) }
        ensures at_end { IfOk result (λ got. IfNone got (Consumes (R.remaining reader.old) (R.remaining reader.new) [] × (0 < length input.old → IsAtEnd (R.remaining reader.new)))) }
        ensures front { StepWritesFront (kept self.old) self.old.out input.new (0 < length input.old) (R.remaining reader.old) (R.remaining reader.new) (W.contents writer.old) (W.contents writer.new) }
    {
        let got = match reader.read(input) {
            Ok(0) => {
                self.end(writer)?;
                return Ok(None);
            }
            Ok(n) => n,
            Err(e) => failed(e)?,
        };
        self.pass_on(writer, &input[..got])?;
        Ok(Some(got))
    }

    // The whole input, and whether it has come to its end. A loop that is proved has to end, and nothing says that the input does: its turns are counted to a
    // number that no run comes to.
    fn run<R: Read, W: Write>(
        &mut self,
        reader: &mut R,
        writer: &mut W,
        input: &mut [u8],
    ) -> Result<bool, Failure>
        ensures runs_as { IfOk result (λ ended. IsTrue ended → RunsAs self.old self.new) }
        ensures runs_on { IfOk result (λ ended. IsTrue ended → RunsOn self.old self.new (R.remaining reader.old) (R.remaining reader.new) (W.contents writer.old) (W.contents writer.new)) }
        ensures at_end { IfOk result (λ ended. IsTrue ended → 0 < length input.old → IsAtEnd (R.remaining reader.new)) }
        ensures front { WritesFront (kept self.old) self.old.out (0 < length input.old) (R.remaining reader.old) (R.remaining reader.new) (W.contents writer.old) (W.contents writer.new) }
    {
        for _ in 0..usize::MAX {
            let Some(_) = self.serve_some(reader, writer, input)? else {
                return Ok(true);
            };
        }
        Ok(false)
    }
}

// The whole program, in buffers of the right sizes. For any reader and writer that tell their bytes: where it comes to the end of the input, it has written the
// run of the input's lines, and whatever fails, the beginning of that run and nothing else.
fn serve<R: Read, W: Write>(reader: &mut R, writer: &mut W) -> Result<bool, Failure>
    ensures whole { IfOk result (λ ended. IsTrue ended → IfSome (R.remaining reader.old) (λ xs. Appends (W.contents writer.old) (W.contents writer.new) (run xs))) }
    ensures front { IfSome (R.remaining reader.old) (λ xs. Begins (W.contents writer.old) (W.contents writer.new) (run xs)) }
{
    let mut desk = Desk {
        state: State::new(),
        line: [0u8; Line::KEPT],
        ledger: [0u8; Buffer::LEDGER],
        table: [0u8; Buffer::TABLE],
        out: [0u8; CHUNK],
        handed: 0,
    };
    desk.run(reader, writer, &mut [0u8; CHUNK])
}

// What is told of a failure names the stream.
fn tell_of(to: &mut impl Write, failure: Failure) -> io::Result<()> {
    match failure {
        Failure::Input(e) => tell::fail(to, b"perdigolh: standard input", e),
        Failure::Output(e) => tell::fail(to, b"perdigolh: standard output", e),
    }
}

fn main(rt: HostRuntime) {
    if let Err(failure) = serve(&mut rt.stdin(), &mut rt.stdout()) {
        // Where standard error fails too, nobody is left to be told.
        let _ = tell_of(&mut rt.stderr(), failure);
    }
}
