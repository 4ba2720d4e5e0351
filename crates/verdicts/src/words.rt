// The words of a line, one space between two. One that the line does not have is empty.
pub fn word(line: &[u8], n: usize) -> &[u8] {
    line.split(|b| *b == b' ').nth(n).unwrap_or(&[])
}

// The six behind the first.
pub fn behind(line: &[u8]) -> [&[u8]; 6] {
    [1, 2, 3, 4, 5, 6].map(|n| word(line, n))
}

// A word in decimal. A byte that is no digit counts here for its low four bits and in plays for itself, on every script: so each has its own.
pub fn number(word: &[u8]) -> usize {
    word.iter().fold(
        0,
        |v: usize, digit| v.wrapping_mul(10).wrapping_add(usize::from(*digit % 16)),
    )
}
