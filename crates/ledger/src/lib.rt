// Ledger: where its fields are, its limits and lifetimes, when it is sound, sweeping it, writing a record (document 01, section "Ledger").
// It rests on octets and forms; the calls of the desk rest on it. Every public function takes any slice.
#![tactic(auto)]

pub mod clock;
pub mod field;
pub mod limit;
pub mod pool;
pub mod record;
pub mod sound;
pub mod state;
pub mod sweep;
pub mod write;
