// The sizes of the line program, each a constant of what it belongs to; a function beside it, public with a promise
// of its own, ties it to its definition.
ghost use Rattle.std.specs.Prelude.{◌≡◌};
ghost use Rattle.frames.specs.Limits.{line_most, line_kept, ledger_most, table_most, answer_line};

#[derive(Clone, Copy)]
pub struct Line {}

impl Line {
    pub const MOST: usize = 640;

    pub const KEPT: usize = 641;

    pub const END: u8 = 10;

    pub fn most() -> usize
        ensures { result ≡ line_most }
    {
        Line::MOST
    }

    pub fn kept() -> usize
        ensures { result ≡ line_kept }
    {
        Line::KEPT
    }
}

#[derive(Clone, Copy)]
pub struct Frame {}

impl Frame {
    pub const MOST: usize = 320;
}

#[derive(Clone, Copy)]
pub struct Buffer {}

impl Buffer {
    pub const LEDGER: usize = 51232;

    pub const TABLE: usize = 4096;

    pub fn ledger() -> usize
        ensures { result ≡ ledger_most }
    {
        Buffer::LEDGER
    }

    pub fn table() -> usize
        ensures { result ≡ table_most }
    {
        Buffer::TABLE
    }
}

#[derive(Clone, Copy)]
pub struct Answer {}

impl Answer {
    pub const LINE: usize = 189;

    pub fn line() -> usize
        ensures { result ≡ answer_line }
    {
        Answer::LINE
    }
}
