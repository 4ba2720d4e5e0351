// Clients: the client table (document 01, section "Client table"): which tables are sound (check 3), which client is known (check 4),
// and what a push asks of a client's record: the bits permitted and how long a reference lives. The table is lent and only read. It rests on octets.
#![tactic(auto)]

pub mod known;
pub mod lifetime;
pub mod record;
pub mod table;
