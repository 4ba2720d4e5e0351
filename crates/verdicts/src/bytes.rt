// The bytes that a word stands for: a text behind a quotation mark, or hexadecimal.
use octets::part::put;

// Puts them at byte a of s.
pub fn lay(s: &mut [u8], a: usize, word: &[u8]) {
    if let Some(text) = word.strip_prefix(b"\"") {
        put(s, a, text);
    } else if let Some(room) = s.get_mut(a..) {
        texts::hex::decode(room, word);
    }
}
