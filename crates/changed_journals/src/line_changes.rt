// Line changes: something of a record is made another, most often of one on the main chain; or the length.
use crate::edits::{add, exchange, some_one};
use crate::picks::{coded_from, some_code, some_index, some_main, some_number, some_used};
use made_journals::book::Book;
use made_journals::records::{BYTES, COMMIT, Journal, Word};

// Any word of a record that a chain has.
pub fn any_word(b: &mut Book, j: &mut Journal) {
    let at = some_used(b);
    let word = Word::at(b.random.below(8));
    let x = b.some_word();
    j.set(at, word, x);
}

// Such a word one more or less.
pub fn word_by_one(b: &mut Book, j: &mut Journal) {
    let at = some_used(b);
    let word = Word::at(b.random.below(8));
    let x = some_one(&mut b.random);
    add(j, at, word, x);
}

// A byte of such a word.
pub fn byte(b: &mut Book, j: &mut Journal) {
    let at = some_used(b);
    let word = Word::at(b.random.below(8));
    let bits = b.random.below(255).wrapping_add(1);
    let shift = b.random.below(4) << 3;
    let x = j.word(at, word);
    j.set(at, word, x ^ (bits << (shift % 32)));
}

// The length: an end of what is allowed, a record more or less, or no whole records.
pub fn length(b: &mut Book) {
    let n = b.length;
    let x = match b.random.below(10) {
        0 => 0,
        1 => 31,
        2 => 32,
        3 => 65536,
        4 => 65568,
        5 => n.wrapping_add(32),
        6 => n.wrapping_sub(32),
        7 => n.wrapping_add(1),
        8 => n.wrapping_sub(1),
        _ => n.wrapping_sub(b.random.below(32)),
    };
    b.length = if x <= BYTES as u32 { x } else { 0 };
}

// The answer of a request, or of a commit, which is ignored.
pub fn answer(b: &mut Book, j: &mut Journal) {
    let at = some_main(b);
    let x = j.word(at, Word::Answer);
    let y = match b.random.below(4) {
        0 => x.wrapping_add(1),
        1 => x.wrapping_sub(1),
        2 => x ^ 1,
        _ => b.some_word(),
    };
    j.set(at, Word::Answer, y);
}

pub fn code(b: &mut Book, j: &mut Journal) {
    let at = some_main(b);
    let x = some_code(b);
    j.set(at, Word::Code, x);
}

// A record is given to another run.
pub fn run(b: &mut Book, j: &mut Journal) {
    let at = some_main(b);
    let other = some_main(b);
    let x = j.word(other, Word::Run);
    j.set(at, Word::Run, x);
}

// Two commits, one the next after the other, exchange their runs.
pub fn commits(b: &mut Book, j: &mut Journal) {
    let from = b.random.below(b.main);
    let one = coded_from(b, j, from, COMMIT);
    let other = coded_from(b, j, one.wrapping_add(1), COMMIT);
    exchange(j, b.record(one), b.record(other), Word::Run);
}

// Two records of the main chain, often one behind the other, exchange all but their next index.
pub fn places(b: &mut Book, j: &mut Journal) {
    let at = some_main(b);
    let far = some_main(b);
    let other = if b.random.chance(2, 3) {
        j.word(at, Word::Next)
    } else {
        far
    };
    if other == 0 {
        return;
    }
    for k in 1..8 {
        exchange(j, at, other, Word::at(k));
    }
}

// The next index of a record of the main chain: that of the next, which drops out; none; or any index.
pub fn main_next(b: &mut Book, j: &mut Journal) {
    let at = some_main(b);
    let next = j.word(at, Word::Next);
    let x = match b.random.below(4) {
        0 => 0,
        1 => some_index(b),
        _ => j.word(next, Word::Next),
    };
    j.set(at, Word::Next, x);
}

// The entry, first or second of a record.
pub fn number(b: &mut Book, j: &mut Journal) {
    let at = some_main(b);
    let word = match b.random.below(3) {
        0 => Word::Entry,
        1 => Word::First,
        _ => Word::Second,
    };
    let x = some_number(b);
    j.set(at, word, x);
}
