// Check 3: whether the client table is sound.
ghost use Rattle.std.specs.Prelude.{◌≡◌};
ghost use Rattle.octets.specs.Lists.{every, apart};
ghost use Rattle.clients.specs.Limits.{clients_least, clients_most};
ghost use Rattle.clients.specs.Sound.{length_right, sound_record, same_id, check_table};

use super::record::{Client, Field, Record};
use super::{lifetime, record};
use octets::part::{is_zero, same};

// An enum: document 01 has each check's answer taken apart by let else, and the case says what was found.
#[derive(Clone, Copy)]
pub enum Table {
    Sound,
    Unsound,
}

impl Table {
    pub const LEAST: usize = 1;

    pub const MOST: usize = 64;

    // A function to each constant: public, with a promise of its own (docs/OUTCOMES.md), which ties it to its definition.
    pub fn least() -> usize
        ensures { result ≡ clients_least }
    {
        Table::LEAST
    }

    pub fn most() -> usize
        ensures { result ≡ clients_most }
    {
        Table::MOST
    }
}

#[tactic(auto, using(octets::proofs::Ranges::contains_is), unfolding(crate::specs::Sound::length_right))]
fn length_right(table: &[u8]) -> bool
    ensures { result ≡ length_right table.now }
{
    let n = record::clients(table);
    table.len() == Client::SIZE * n && (Table::LEAST..=Table::MOST).contains(&n)
}

#[tactic(auto, unfolding(crate::specs::Sound::sound_record, crate::specs::Sound::id_given, crate::specs::Sound::key_given, crate::specs::Sound::rest_zero))]
fn sound_record(c: &Record) -> bool
    ensures { result ≡ sound_record c.now }
{
    !is_zero(Field::ID.of(c))
        && !is_zero(Field::AUTH_KEY.of(c))
        && lifetime::fits(c)
        && is_zero(Field::REST.of(c))
}

fn sound_records(entries: &[Record]) -> bool
    ensures { result ≡ every sound_record entries.now }
{
    entries.iter().all(sound_record)
}

#[tactic(auto, unfolding(crate::specs::Sound::same_id))]
fn same_id(c: &Record, d: &Record) -> bool
    ensures { result ≡ same_id c.now d.now }
{
    same(Field::ID.of(c), Field::ID.of(d))
}

// Each pair of records is looked at, up to the first clash. A search of its own, as soundness has two: document 01 wants them searches left by a label, and
// one that is generic in the clash would hide what is compared.
fn ids_distinct(entries: &[Record]) -> bool
    ensures { result ≡ apart same_id entries.now }
{
    let mut clash = false;
    'search: for (i, c) in entries.iter().enumerate() {
        for d in &entries[i + 1..] {
            if same_id(c, d) {
                clash = true;
                break 'search;
            }
        }
    }
    !clash
}

#[tactic(auto, using(crate::proofs::Checks::sound_order), unfolding(crate::specs::Sound::check_table, crate::specs::Sound::ids_distinct))]
pub fn check(table: &[u8]) -> Table
    ensures { result ≡ check_table table.now }
{
    let entries = record::entries(table);
    if length_right(table) && sound_records(entries) && ids_distinct(entries) {
        Table::Sound
    } else {
        Table::Unsound
    }
}
