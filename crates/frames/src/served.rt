// What a frame leaves.
ghost use Rattle.std.specs.Prelude.{◌≡◌};

// The lengths in use of ledger and table, and the number of the answer's bytes.
#[derive(Clone, Copy)]
pub struct Served {
    pub ledger: usize,
    pub table: usize,
    pub count: usize,
}

impl Served {
    pub fn with(ledger: usize, table: usize, count: usize) -> Served
        ensures { (result.ledger ≡ ledger) × ((result.table ≡ table) × (result.count ≡ count)) }
    {
        Served {
            ledger,
            table,
            count,
        }
    }
}
