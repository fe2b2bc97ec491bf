// Numbers among the words.
use crate::words;

// The number that a word of digits spells, 255 for those above, or none where it is no number.
fn spelt(word: &[u8]) -> Option<u8> {
    let mut number = None;
    for byte in word {
        if !byte.is_ascii_digit() {
            return None;
        }
        let tens = number.unwrap_or(0u8).saturating_mul(10);
        number = Some(tens.saturating_add(*byte - b'0'));
    }
    number
}

// The number that an argument spells.
pub fn word(rt: HostRuntime, place: usize) -> Option<u8> {
    let mut buffer = io::buffer();
    spelt(words::put(rt, place, &mut buffer))
}
