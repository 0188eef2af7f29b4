// Words: the bits of a word.

// Bit i of a word, from 0.
pub fn bit(i: u32) -> u32 {
    1u32.checked_shl(i).unwrap_or(0)
}
