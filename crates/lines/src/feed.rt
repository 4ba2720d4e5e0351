// The input as it comes: bytes are gathered to lines, a line is served at its end, and its answer's line goes to the output. State and the buffers of line,
// ledger and table are kept from call to call; what the output has no room for is not taken yet.
ghost use Rattle.std.specs.Prelude.{◌≡◌, ◌+◌, ◌≤◌, true, length};
ghost use Rattle.frames.specs.Limits.{answer_line};
ghost use Rattle.frames.specs.Line.{line_of};
ghost use Rattle.lines.specs.Turn.{held, lengths, fits, ended, ending, turn, says};
ghost use Rattle.lines.specs.Feed.{turned, putting, left, feed, finish};

use frames::limit::{Answer, Buffer, Line};
use frames::line::answer;

// The lengths in use of the buffers of line, ledger and table. `feed` and `finish` promise for all lengths and buffers, so they stay numbers and slices.
#[derive(Clone, Copy)]
pub struct State {
    pub line: usize,
    pub ledger: usize,
    pub table: usize,
}

impl State {
    // "Before the first start the ledger has length 0": nor is there a line or a client.
    pub fn new() -> State
        ensures { result ≡ lengths 0 0 0 }
    {
        State {
            line: 0,
            ledger: 0,
            table: 0,
        }
    }

    // Whether the buffers have their sizes, with the lengths within them.
    #[tactic(auto, unfolding(crate::specs::Turn::fits))]
    fn fits(self, line: &[u8], ledger: &[u8], table: &[u8]) -> bool
        ensures { result ≡ fits (held self line.now ledger.now table.now) }
    {
        line.len() == Line::KEPT
            && ledger.len() == Buffer::LEDGER
            && table.len() == Buffer::TABLE
            && self.line <= Line::KEPT
            && self.ledger <= Buffer::LEDGER
            && self.table <= Buffer::TABLE
    }
}

// What a call leaves: the lengths, how much of the input it took, and how many bytes it put out.
#[derive(Clone, Copy)]
pub struct Fed {
    pub state: State,
    pub taken: usize,
    pub filled: usize,
}

impl Fed {
    // A call that does nothing.
    fn nothing(state: State) -> Fed
        ensures { (result.state ≡ state) × ((result.taken ≡ 0) × (result.filled ≡ 0)) }
    {
        Fed {
            state,
            taken: 0,
            filled: 0,
        }
    }
}

// A line's end: the line is served, its answer's line put behind what is filled, and the next line begins. How far the output is filled then is answered.
// The buffers are lent one by one: a struct of `&mut`s would say in each contract that it still holds the same ones.
fn end_line(
    state: &mut State,
    line: &[u8],
    ledger: &mut [u8],
    table: &mut [u8],
    out: &mut [u8],
    filled: usize,
) -> usize
    requires { (fits (held state.old line.now ledger.old table.old) ≡ true) × (filled + answer_line ≤ length out.old) }
    ensures { turned (held state.new line.now ledger.new table.new) result out.new ≡ putting (ended (held state.old line.now ledger.old table.old)) (line_of (ending (held state.old line.now ledger.old table.old)).answer) filled out.old }
{
    let r = answer(
        &line[..state.line],
        state.ledger,
        state.table,
        ledger,
        table,
        &mut out[filled..],
    );
    *state = State {
        line: 0,
        ledger: r.ledger,
        table: r.table,
    };
    filled + r.count
}

// One byte of the input: an end of line, or a character of one. What a frame has no room for is passed over.
fn turn(
    c: u8,
    state: &mut State,
    line: &mut [u8],
    ledger: &mut [u8],
    table: &mut [u8],
    out: &mut [u8],
    filled: usize,
) -> usize
    requires { (fits (held state.old line.old ledger.old table.old) ≡ true) × (filled + answer_line ≤ length out.old) }
    ensures { turned (held state.new line.new ledger.new table.new) result out.new ≡ putting (turn (held state.old line.old ledger.old table.old) c) (says (held state.old line.old ledger.old table.old) c) filled out.old }
{
    if c == Line::END {
        return end_line(state, line, ledger, table, out, filled);
    }
    if Line::KEPT <= state.line {
        return filled;
    }
    line[state.line] = c;
    state.line += 1;
    filled
}

// Takes bytes of the input as long as the output has room for an answer's line more. Where a buffer has not its size, nothing is taken.
pub fn feed(
    input: &[u8],
    s: State,
    line: &mut [u8],
    ledger: &mut [u8],
    table: &mut [u8],
    out: &mut [u8],
) -> Fed
    ensures out_after { left (held result.state line.new ledger.new table.new) result.taken result.filled out.new ≡ feed (held s line.old ledger.old table.old) input.now out.old }
    ensures taken_in_bounds { (result.taken ≤ length input.now) × (result.filled ≤ length out.old) }
{
    if !s.fits(line, ledger, table) {
        return Fed::nothing(s);
    }
    let mut state = s;
    let mut filled = 0;
    for (taken, c) in input.iter().enumerate() {
        if out.len() < filled + Answer::LINE {
            return Fed {
                state,
                taken,
                filled,
            };
        }
        filled = turn(*c, &mut state, line, ledger, table, out, filled);
    }
    Fed {
        state,
        taken: input.len(),
        filled,
    }
}

// The end of the input: a line that is begun counts.
pub fn finish(s: State, line: &mut [u8], ledger: &mut [u8], table: &mut [u8], out: &mut [u8]) -> Fed
    ensures out_after { left (held result.state line.new ledger.new table.new) result.taken result.filled out.new ≡ finish (held s line.old ledger.old table.old) out.old }
    ensures filled_in_bounds { result.filled ≤ length out.old }
{
    if !s.fits(line, ledger, table) || s.line == 0 || out.len() < Answer::LINE {
        return Fed::nothing(s);
    }
    let mut state = s;
    let filled = turn(Line::END, &mut state, line, ledger, table, out, 0);
    Fed {
        state,
        taken: 0,
        filled,
    }
}
