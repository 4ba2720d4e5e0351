// The words of a line, one space between two. A letter stands for itself and a digit for its number, so that 0 is the byte zero.

// The line from word n on: a text that may have spaces, or may be empty.
pub fn rest(line: &[u8], n: usize) -> &[u8] {
    line.splitn(n.saturating_add(1), |b| *b == b' ')
        .nth(n)
        .unwrap_or(&[])
}

pub fn word(line: &[u8], n: usize) -> &[u8] {
    line.split(|b| *b == b' ').nth(n).unwrap_or(&[])
}

pub fn octet(b: u8) -> u8 {
    match b {
        b'0'..=b'9' => b - b'0',
        _ => b,
    }
}

// The byte that the first letter of word n stands for.
pub fn letter(line: &[u8], n: usize) -> u8 {
    rest(line, n).first().map_or(0, |b| octet(*b))
}

// The letters of words 2 to 7, which stand behind the name and the time.
pub fn letters(line: &[u8]) -> [u8; 6] {
    [2, 3, 4, 5, 6, 7].map(|n| letter(line, n))
}

// Word n in decimal.
pub fn number(line: &[u8], n: usize) -> u64 {
    word(line, n).iter().fold(
        0,
        |v: u64, digit| v.wrapping_mul(10).wrapping_add(u64::from(octet(*digit))),
    )
}
