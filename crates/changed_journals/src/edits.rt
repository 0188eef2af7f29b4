// Edits: small changes that others are made of.
use made_journals::random::Random;
use made_journals::records::{Journal, Word};

// Adds to a word of a record.
pub fn add(j: &mut Journal, at: u32, word: Word, x: u32) {
    let old = j.word(at, word);
    j.set(at, word, old.wrapping_add(x));
}

// 1 up or 1 down.
pub fn some_one(random: &mut Random) -> u32 {
    if random.chance(1, 2) { 1 } else { u32::MAX }
}

pub fn exchange(j: &mut Journal, at: u32, other: u32, word: Word) {
    let x = j.word(at, word);
    let y = j.word(other, word);
    j.set(at, word, y);
    j.set(other, word, x);
}
