// How much of the buffers of ledger and table is in use.
ghost use Rattle.std.specs.Prelude.{◌≤◌, ◌≡◌, ◌↔◌, IsSome, IfSome};
ghost use Rattle.frames.specs.Limits.{ledger_most, table_most};

use super::limit::Buffer;

#[derive(Clone, Copy)]
pub struct Used {
    pub ledger: usize,
    pub table: usize,
    ghost ledger_fits: { ledger ≤ ledger_most },
    ghost table_fits: { table ≤ table_most },
}

impl Used {
    pub fn within(ledger: usize, table: usize) -> Option<Used>
        ensures fits { IsSome result ↔ ((ledger ≤ ledger_most) × (table ≤ table_most)) }
        ensures value { IfSome result (λ u. (u.ledger ≡ ledger) × (u.table ≡ table)) }
    {
        if ledger <= Buffer::LEDGER && table <= Buffer::TABLE {
            Some(Used { ledger, table })
        } else {
            None
        }
    }
}
