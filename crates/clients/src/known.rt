// Check 4: whether a client is known by its id and authentication key.
ghost use Rattle.std.specs.Prelude.{◌≡◌, position};
ghost use Rattle.clients.specs.Fields.{entries};
ghost use Rattle.clients.specs.Known.{has_id, has_key, known};

use super::record;
use super::record::Field;
use octets::part::same;

#[tactic(auto, unfolding(crate::specs::Known::has_id))]
fn has_id(c: &[u8], id: &[u8; 16]) -> bool
    ensures { result ≡ has_id id.now c.now }
{
    same(Field::ID.of(c), id)
}

#[tactic(auto, unfolding(crate::specs::Known::has_key))]
fn has_key(c: &[u8], key: &[u8; 32]) -> bool
    ensures { result ≡ has_key key.now c.now }
{
    same(Field::AUTH_KEY.of(c), key)
}

// The place of the first record with this id.
fn place_of(table: &[u8], id: &[u8; 16]) -> Option<usize>
    ensures { result ≡ position (has_id id.now) (entries table.now) }
{
    record::entries(table).iter().position(|c| has_id(c, id))
}

// A client is found by its id alone, since two may share a key; the key is compared afterwards.
pub fn find(table: &[u8], id: &[u8; 16], key: &[u8; 32]) -> Option<usize>
    ensures { result ≡ known table.now id.now key.now }
{
    let k = place_of(table, id)?;
    has_key(record::client_at(table, k), key).then_some(k)
}
