// Frames: a line of the line program, on slices (document 01, section "The line program"): one way down, a line is a kind, a kind is a call, and up again its
// answer's line. It rests on the six calls, on wire for frames and answers, on texts for hexadecimal, and serves demand 1.
#![tactic(auto)]

mod answer;
mod call;
mod kind;
pub mod limit;
pub mod line;
pub mod served;
mod used;
