// Texts: bytes in hexadecimal and in base64url, numbers in decimal. It rests on octets; the line program, the S256 rule and every text of the desk are
// written in it. Each writer lays its text over an output from a place on, as far as there is room, and answers how many characters the text has.
#![tactic(auto)]

pub mod base64url;
pub mod decimal;
pub mod hex;
mod spelling;
