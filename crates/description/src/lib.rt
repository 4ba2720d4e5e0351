// Description: the text that describes a live token to the figure servers (document 02, Q-1): one JSON object, written piece by piece. It rests on texts
// for hexadecimal, decimal and base64url.
#![tactic(auto)]

ghost use Rattle.std.specs.Prelude.{◌≡◌, ◌+◌, ◌*◌, ◌<◌, ◌^◌, leb, length};
ghost use Rattle.octets.specs.Parts.{put};
ghost use Rattle.description.specs.Description.{telling, live_text, inactive_text};
ghost use Rattle.description.specs.Apart.{live_most, widest_most};
ghost use Rattle.description.specs.Writing.{written, written_over};

use octets::part::put;
use writer::Writer;

mod scope;
mod writer;

// What a live token is described by, lent.
#[derive(Clone, Copy)]
pub struct Description<'a> {
    pub client: &'a [u8],
    pub holder: u64,
    pub expiry: u64,
    pub scope: u32,
    pub key: &'a [u8],
}

impl<'a> Description<'a> {
    // The longest text of a sound record; most and widest, public with a promise each, say the same numbers as the definitions.
    pub const MOST: usize = 304;

    // The longest of any values of the fields' widths.
    pub const WIDEST: usize = 311;

    pub fn most() -> usize
        ensures { result ≡ live_most }
    {
        Description::MOST
    }

    pub fn widest() -> usize
        ensures { result ≡ widest_most }
    {
        Description::WIDEST
    }
}

// The live text over the front of the output, as far as there is room; answers how long it is.
fn spell(out: &mut [u8], d: Description) -> usize
    requires { 2 * length d.client.now + length d.key.now < 2 ^ 63 }
    ensures { (result ≡ length (live_text (telling d.entry))) × (out.new ≡ put out.old 0 (live_text (telling d.entry))) }
{
    let mut writer = Writer { out, at: 0 };
    writer.text(b"{\"active\":true,\"client_id\":\"");
    writer.hex(d.client);
    writer.text(b"\",\"sub\":\"");
    writer.decimal(d.holder);
    writer.text(b"\",\"exp\":");
    writer.decimal(d.expiry);
    writer.text(b",\"scope\":\"");
    writer.scope(d.scope);
    writer.text(b"\",\"cnf\":{\"x5t#S256\":\"");
    writer.base64url(d.key);
    writer.text(b"\"}}");
    writer.at
}

// Whether the digits of the client and the bytes of the key alone have room: where not, the text has none either, and its length may be past a usize.
fn has_room(room: usize, client: usize, key: usize) -> bool
    requires { (room < 2 ^ 63) × (client < 2 ^ 63) × (key < 2 ^ 63) }
    ensures { result ≡ leb (2 * client + key) room }
{
    2 * client <= room && key <= room - 2 * client
}

pub fn live(out: &mut [u8], d: Description) -> Option<usize>
    ensures { (result ≡ written (live_text (telling d.entry)) out.old) × (out.new ≡ written_over (live_text (telling d.entry)) out.old) }
{
    if !has_room(out.len(), d.client.len(), d.key.len()) {
        return None;
    }
    let n = spell(&mut [], d);
    if out.len() < n {
        return None;
    }
    spell(out, d);
    Some(n)
}

pub fn inactive(out: &mut [u8]) -> Option<usize>
    ensures { (result ≡ written inactive_text out.old) × (out.new ≡ written_over inactive_text out.old) }
{
    let what = b"{\"active\":false}";
    if out.len() < what.len() {
        return None;
    }
    put(out, 0, what);
    Some(what.len())
}
