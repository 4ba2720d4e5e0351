// Octets: big-endian numbers, parts of byte slices and fields in them, the ground of every other crate. It rests on no other crate.
// Every public function is total: specs/ says what it answers for a slice of any length.
#![tactic(auto)]

pub mod number;
pub mod part;
pub mod span;
