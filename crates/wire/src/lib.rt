// Wire: the bytes of requests and answers (document 01, section "The line program"): the kinds of frames, the places of their fields, what each asks of the
// desk, and an answer's bytes. It rests on desk, clients, forms and octets, and serves demand 1.
#![tactic(auto)]

pub mod answer;
pub mod kind;
