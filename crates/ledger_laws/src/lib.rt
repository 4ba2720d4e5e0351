// Upkeep: what the ledger's soundness says of every record and pair, what each writer leaves in each field, that each keeps a sound ledger sound, and a view by named fields.
// It rests on ledger, forms and octets, and has definitions and laws alone; desk's laws and the histories rest on it.

#![tactic(auto)]
