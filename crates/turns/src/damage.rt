// Damage: one word of a side changed, by chance.
use books::book::Book;
use schedules::side::{PARTIES, TABLE};
use schedules::words::bit;

// A place in the table or in the store.
pub fn place(b: &mut Book) -> usize {
    let end = b.round.size.words.wrapping_add(TABLE as u32);
    b.random.below(end) as usize
}

// A record's number, or one that is none.
fn record(b: &mut Book) -> u32 {
    b.random.below(b.round.size.records.wrapping_add(2))
}

// Another value for a word: a little more or less, a record's number, a bit turned, any word.
pub fn other(b: &mut Book, x: u32) -> u32 {
    match b.random.below(5) {
        0 => x.wrapping_add(1),
        1 => x.wrapping_sub(1),
        2 => record(b),
        3 => x ^ bit(b.random.below(PARTIES as u32)),
        _ => b.random.word(),
    }
}
