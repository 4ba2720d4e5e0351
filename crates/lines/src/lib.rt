// Lines: the input of the line program as it comes, in chunks (document 01, section "The line program"): bytes are gathered to lines, each line is answered
// at its end, and a last line without LF counts. It rests on frames, and serves demand 1.
#![tactic(auto)]

pub mod feed;
