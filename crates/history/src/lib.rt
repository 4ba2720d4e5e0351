// History: what every run of calls keeps (demand 3), in specs/Demand3.antt, read off the events of its steps (specs/Events.antt). It has no code of its own.
// A run is made of desk's definitions of the calls, on the ledger's bytes, from the bytes that start writes. It rests on desk, whose functions
// are proved equal to those definitions for every input: what is said here of runs is said of the functions called one after the other.

#![tactic(auto)]
