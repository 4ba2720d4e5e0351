// Finding: the plain engine, which looks at every record, in ledger order: the record that a call asks for, and whether a value is in the pool.
// What it answers is said in the ledger's own definitions, so that another engine can answer the same. It rests on ledger and octets.
#![tactic(auto)]

pub mod pool;
pub mod record;
