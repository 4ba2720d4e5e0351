// A client record: where its fields are, and what is read off record k of a table. Past the last record there are no bytes.
ghost use Rattle.std.specs.Prelude.{◌≡◌};
ghost use Rattle.clients.specs.Limits.{client_size};
ghost use Rattle.clients.specs.Fields.{clients, client, entries, permitted};

use octets::number::Number;
use octets::part::cut;
use octets::span::Span;

#[derive(Clone, Copy)]
pub struct Client {}

impl Client {
    pub const SIZE: usize = 64;

    // A function to each constant: public, with a promise of its own (docs/OUTCOMES.md), which ties it to its definition.
    pub fn size() -> usize
        ensures { result ≡ client_size }
    {
        Client::SIZE
    }
}

// Where the fields of a record are.
#[derive(Clone, Copy)]
pub struct Field {}

impl Field {
    pub const ID: Span = Span {
        place: 0,
        width: 16,
    };

    pub const AUTH_KEY: Span = Span {
        place: 16,
        width: 32,
    };

    pub const PERMITTED: Span = Span {
        place: 48,
        width: 4,
    };

    pub const LIFETIME: Span = Span {
        place: 52,
        width: 2,
    };

    pub const REST: Span = Span {
        place: 54,
        width: 10,
    };
}

// How many whole records the table has. Beside the ledger's slots, records and at: over another size and no head, and each has a definition of its own.
pub fn clients(table: &[u8]) -> usize
    ensures { result ≡ clients table.now }
{
    table.len() / Client::SIZE
}

pub(crate) type Record = [u8; Client::SIZE];

// The whole records, in table order.
pub(crate) fn entries(table: &[u8]) -> &[Record]
    ensures { result.now ≡ entries table.now }
{
    table.as_chunks::<{ Client::SIZE }>().0
}

// Record k. The place is computed only where it cannot pass the end. Table and place are two parameters, here and in permitted: the
// calls hold the place, and the table is lent to them.
pub fn client_at(table: &[u8], k: usize) -> &[u8]
    ensures { result.now ≡ client table.now k }
{
    if clients(table) < k {
        return cut(table, table.len(), Client::SIZE);
    }
    cut(table, Client::SIZE * k, Client::SIZE)
}

// The permitted scope bits of record k, by the name of their field, as the ledger's fields are read.
#[tactic(auto, using(octets::proofs::Spans::field_read))]
pub fn permitted(table: &[u8], k: usize) -> u32
    ensures { result ≡ permitted (client table.now k) }
{
    u32::read(Field::PERMITTED.of(client_at(table, k)))
}
