// What each kind of frame does to ledger and table, which lie at the front of their buffers, and the bytes of its answer.
ghost use Rattle.std.specs.Prelude.{◌≡◌, ◌≤◌, length, take};
ghost use Rattle.wire.specs.Kinds.{kind_of, width};
ghost use Rattle.wire.specs.Kinds.{start as startRow, client as clientRow};
ghost use Rattle.frames.specs.Serve.{serve, started, appended};
ghost use Rattle.frames.specs.Hold.{desk_in, filled, fill, placed, place};

use super::answer::Bytes;
use super::call::call;
use super::limit::Buffer;
use super::used::Used;
use clients::record::Client as Record;
use desk::answer::{Answer, Refusal};
use ledger::limit::Ledger;
use octets::part::{cut, put};
use wire::answer::Said;
use wire::kind::{Client, Kind, Start, kind_of};

// Start, in the front of the ledger's buffer.
fn start(f: &[u8], used: &mut Used, ledger: &mut [u8; Buffer::LEDGER]) -> Bytes
    requires { width startRow ≤ length f.now }
    ensures ledger_after { filled used.new.ledger ledger.new result ≡ fill (started f.now (take used.old.ledger ledger.old)) ledger.old }
    ensures table_stays { used.new.table ≡ used.old.table }
{
    let slots = usize::from(f[Start::SLOTS]);
    if slots < Ledger::LEAST || Ledger::MOST < slots {
        return Bytes::number(Refusal::LedgerUnsound.into());
    }
    let n = Ledger::HEAD + slots * Ledger::RECORD;
    let number = start::start(&mut ledger[..n]);
    used.ledger = n;
    Bytes::number(number)
}

// A client's record, behind those in the front of the table's buffer.
#[tactic(auto, using(crate::proofs::Holding::append_full, crate::proofs::Holding::append_done))]
fn append(f: &[u8], used: &mut Used, table: &mut [u8; Buffer::TABLE]) -> Bytes
    requires { width clientRow ≤ length f.now }
    ensures table_after { filled used.new.table table.new result ≡ fill (appended f.now (take used.old.table table.old)) table.old }
    ensures ledger_stays { used.new.ledger ≡ used.old.ledger }
{
    let n = used.table;
    if Buffer::TABLE < n + Record::SIZE {
        return Bytes::number(Refusal::TableUnsound.into());
    }
    put(table, n, cut(f, Client::RECORD, Record::SIZE));
    used.table = n + Record::SIZE;
    Bytes::number(Answer::DONE)
}

// A frame, or what is none. A match, here and in call: each kind takes other buffers, and closures would have to hold all of them.
pub fn serve(
    f: &[u8],
    used: &mut Used,
    ledger: &mut [u8; Buffer::LEDGER],
    table: &mut [u8; Buffer::TABLE],
) -> Bytes
    ensures { placed used.new.ledger used.new.table ledger.new table.new result ≡ place (serve (kind_of f.now) f.now (desk_in used.old.ledger used.old.table ledger.old table.old)) ledger.old table.old }
{
    let Some(kind) = kind_of(f) else {
        return Bytes::number(Said::NO_FRAME);
    };
    match kind {
        Kind::Start => start(f, used, ledger),
        Kind::Client => append(f, used, table),
        _ => call(kind, f, &mut ledger[..used.ledger], &table[..used.table]),
    }
}
