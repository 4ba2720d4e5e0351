// Desk: what the calls are and what they answer (document 01, sections "The calls, with checks in order" and "Numbers returned"; document 02, Q-1): one
// definition a call in specs/, the answers with their constructors, and the checks that are the desk's own. It rests on ledger, clients, description, forms
// and s256. The calls themselves, start, push, decide, token, resource, sweep, and pending and introspect, which only read, are a crate each above it.
#![tactic(auto)]

pub mod answer;
pub mod check;
pub mod output;
pub mod request;
