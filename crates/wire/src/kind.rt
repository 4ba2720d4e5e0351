// The kinds of frames: each with its byte, and the places of its fields.
ghost use Rattle.std.specs.Prelude.{◌≡◌, ◌≤◌, length, IfSome};
ghost use Rattle.wire.specs.Calls.{request_size};
ghost use Rattle.wire.specs.Kinds.{kind_of, least};

#[derive(Clone, Copy)]
pub enum Kind {
    Start,
    Push,
    Decide,
    Token,
    Resource,
    Sweep,
    Client,
}

// Widths, bytes and places of fields are associated constants of what they belong to (document 01), so each kind has a type beside `Kind`.
#[derive(Clone, Copy)]
pub struct ClientId {}

impl ClientId {
    pub const WIDTH: usize = 16;
}

#[derive(Clone, Copy)]
pub struct Key {}

impl Key {
    pub const WIDTH: usize = 32;
}

#[derive(Clone, Copy)]
pub struct Value {}

impl Value {
    pub const WIDTH: usize = 32;
}

#[derive(Clone, Copy)]
pub struct Start {}

impl Start {
    pub const BYTE: u8 = 0;

    pub const SLOTS: usize = 1;

    pub const WIDTH: usize = 2;
}

#[derive(Clone, Copy)]
pub struct Push {}

impl Push {
    pub const BYTE: u8 = 1;

    pub const TIME: usize = 1;

    pub const CLIENT: usize = 9;

    pub const KEY: usize = 25;

    pub const SCOPE: usize = 57;

    pub const CHALLENGE: usize = 61;

    pub const FRESH: usize = 104;

    pub const WIDTH: usize = 136;
}

#[derive(Clone, Copy)]
pub struct Decide {}

impl Decide {
    pub const BYTE: u8 = 2;

    pub const TIME: usize = 1;

    pub const CLIENT: usize = 9;

    pub const REFERENCE: usize = 25;

    pub const YES: usize = 57;

    pub const HOLDER: usize = 58;

    pub const FRESH: usize = 66;

    pub const WIDTH: usize = 98;
}

#[derive(Clone, Copy)]
pub struct Token {}

impl Token {
    pub const BYTE: u8 = 3;

    pub const TIME: usize = 1;

    pub const CLIENT: usize = 9;

    pub const KEY: usize = 25;

    pub const PRESENTED: usize = 57;

    pub const CODE: usize = 89;

    pub const FRESH: usize = 121;

    pub const WIDTH: usize = 153;
}

#[derive(Clone, Copy)]
pub struct Resource {}

impl Resource {
    pub const BYTE: u8 = 4;

    pub const TIME: usize = 1;

    pub const TOKEN: usize = 9;

    pub const KEY: usize = 41;

    pub const SCOPE: usize = 73;

    pub const HOLDER: usize = 77;

    pub const WIDTH: usize = 85;

    // A request of a page is the frame without its kind.
    pub const REQUEST: usize = 84;

    // A function to each constant: public, with a promise of its own (docs/OUTCOMES.md), which ties it to its definition.
    pub fn request() -> usize
        ensures { result ≡ request_size }
    {
        Resource::REQUEST
    }
}

#[derive(Clone, Copy)]
pub struct Sweep {}

impl Sweep {
    pub const BYTE: u8 = 5;

    pub const TIME: usize = 1;

    pub const WIDTH: usize = 9;
}

#[derive(Clone, Copy)]
pub struct Client {}

impl Client {
    pub const BYTE: u8 = 6;

    pub const RECORD: usize = 1;

    pub const WIDTH: usize = 65;
}

// The kind whose byte comes first, where the frame has its length, and decide's its yes byte: "a yes byte above 01" is no frame.
pub fn kind_of(f: &[u8]) -> Option<Kind>
    ensures value { result ≡ kind_of f.now }
    ensures result_in_bounds { IfSome result (λ k. least k ≤ length f.now) }
{
    match f {
        [Start::BYTE, ..] if f.len() == Start::WIDTH => Some(Kind::Start),
        [Push::BYTE, ..] if Push::WIDTH <= f.len() => Some(Kind::Push),
        [Decide::BYTE, ..] if f.len() == Decide::WIDTH && f[Decide::YES] <= 1 => Some(Kind::Decide),
        [Token::BYTE, ..] if Token::WIDTH <= f.len() => Some(Kind::Token),
        [Resource::BYTE, ..] if f.len() == Resource::WIDTH => Some(Kind::Resource),
        [Sweep::BYTE, ..] if f.len() == Sweep::WIDTH => Some(Kind::Sweep),
        [Client::BYTE, ..] if f.len() == Client::WIDTH => Some(Kind::Client),
        _ => None,
    }
}
