// Values: what a word is changed to, and the length of a store.
use samples::words::{PARTIES, STORE, Words, bit};

// How many parties there are: a bit more than the sessions have.
const ALL: u32 = PARTIES as u32;

pub const VALUES: u32 = 13;

// A record's number, by chance of the place.
fn record(w: &Words, i: u32) -> u32 {
    i.checked_rem(w.header(1)).map_or(0, |r| r.wrapping_add(1))
}

// Value k for the word x at place i: 0 to 6; one more and one less; what stands elsewhere; a record; the largest number; a bit flipped.
pub fn value(w: &Words, words: u32, i: u32, x: u32, k: u32) -> u32 {
    match k {
        7 => x.wrapping_add(1),
        8 => x.wrapping_sub(1),
        9 => w.get((31 * i as usize + 17) % (STORE + words as usize)),
        10 => record(w, i),
        11 => u32::MAX,
        12 => x ^ bit(i % ALL + 1),
        _ => k,
    }
}

pub const LENGTHS: u32 = 10;

// Length k for a store of so many words: as it is, too short for a header, a record less or more, a part of one less or more.
pub fn length(words: u32, k: u32) -> u32 {
    match k {
        1 => 1,
        2 => 15,
        3 => 16,
        4 => 17,
        5 => words.wrapping_sub(20),
        6 => words.wrapping_sub(1),
        7 => words.wrapping_add(1),
        8 => words.wrapping_add(19),
        9 => words.wrapping_add(20),
        _ => words,
    }
}
