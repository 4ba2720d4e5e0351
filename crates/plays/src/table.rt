// The client table: A with key a and permitted scope 5, and B to E with keys b to e and permitted scope 7. Bytes 52..54 say how long their references
// live: 599 seconds for A and B, 0 for C, 1 for D, and for E 600, which is not sound.
use super::words::octet;

pub fn five() -> [u8; 320] {
    let text =
        b"AAAAAAAAAAAAAAAAaaaaaaaaaaaaaaaaaaaaaaaaaaaaaaaa00052W0000000000BBBBBBBBBBBBBBBBbbbbbbbbbbbbbbbbbbbbbbbbbbbbbbbb00072W0000000000CCCCCCCCCCCCCCCCcccccccccccccccccccccccccccccccc0007000000000000DDDDDDDDDDDDDDDDdddddddddddddddddddddddddddddddd0007010000000000EEEEEEEEEEEEEEEEeeeeeeeeeeeeeeeeeeeeeeeeeeeeeeee00072X0000000000";
    text.map(octet)
}

// As many clients of the table as there are, at most.
pub fn first(table: &[u8], clients: u8) -> &[u8] {
    let n = 64 * usize::from(clients);
    &table[..n.min(table.len())]
}
