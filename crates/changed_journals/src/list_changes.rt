// List changes: something of a list is made another.
use crate::edits::{add, exchange, some_one};
use crate::picks::{some_index, some_listed, some_locate, some_number};
use made_journals::book::Book;
use made_journals::records::{Journal, Word};

// The list of a locate without its first pair. The answer may go along.
pub fn shorter(b: &mut Book, j: &mut Journal, less: u32) {
    let at = some_locate(b, j);
    let list = j.word(at, Word::List);
    let after = j.word(list, Word::Next);
    j.set(at, Word::List, after);
    add(j, at, Word::Answer, 0u32.wrapping_sub(less));
}

// A list without one of its pairs, not the first.
pub fn gap(b: &mut Book, j: &mut Journal) {
    let at = some_listed(b);
    let next = j.word(at, Word::Next);
    let after = j.word(next, Word::Next);
    j.set(at, Word::Next, after);
}

// A pair that the list of a locate may lack, at one of the ends of its range.
fn set_new_pair(b: &mut Book, j: &mut Journal, at: u32, new: u32, end: Word) {
    let entry = b.some_entry();
    let key = j.word(at, end);
    j.set(new, Word::PAIR_KEY, key);
    j.set(new, Word::PAIR_ENTRY, entry);
}

// The list of a locate with one more pair before it, in a record that no chain has, where there is one. The answer may go along.
pub fn longer(b: &mut Book, j: &mut Journal, more: u32) {
    let at = some_locate(b, j);
    let list = j.word(at, Word::List);
    let new = b.spare();
    set_new_pair(b, j, at, new, Word::First);
    j.set(new, Word::Next, list);
    j.set(at, Word::List, new);
    add(j, at, Word::Answer, more);
}

// The last record of a list, as far as it can be followed.
fn last_of(j: &Journal, n: u32, start: u32) -> u32 {
    let mut at = start;
    for _ in 0..n {
        let next = j.word(at, Word::Next);
        if next == 0 {
            break;
        }
        at = next;
    }
    at
}

// The list of a locate with one more pair behind it, in such a record. The answer may go along.
pub fn longer_at_end(b: &mut Book, j: &mut Journal, more: u32) {
    let at = some_locate(b, j);
    let last = last_of(j, b.records, j.word(at, Word::List));
    let new = b.spare();
    set_new_pair(b, j, at, new, Word::Second);
    j.set(new, Word::Next, 0);
    j.set(last, Word::Next, new);
    add(j, at, Word::Answer, more);
}

// The pair of a list record: one more or less, or other numbers.
pub fn pair(b: &mut Book, j: &mut Journal) {
    let at = some_listed(b);
    let word = match b.random.below(2) {
        0 => Word::PAIR_KEY,
        _ => Word::PAIR_ENTRY,
    };
    if b.random.chance(1, 2) {
        let one = some_one(&mut b.random);
        add(j, at, word, one);
        return;
    }
    let x = some_number(b);
    j.set(at, word, x);
}

// Two pairs of a list, one behind the other, exchanged.
pub fn unsorted(b: &mut Book, j: &mut Journal) {
    let at = some_listed(b);
    let next = j.word(at, Word::Next);
    exchange(j, at, next, Word::PAIR_KEY);
    exchange(j, at, next, Word::PAIR_ENTRY);
}

// A pair in place of the one behind it.
pub fn doubled(b: &mut Book, j: &mut Journal) {
    let at = some_listed(b);
    let next = j.word(at, Word::Next);
    let key = j.word(at, Word::PAIR_KEY);
    let entry = j.word(at, Word::PAIR_ENTRY);
    j.set(next, Word::PAIR_KEY, key);
    j.set(next, Word::PAIR_ENTRY, entry);
}

// The list index of a locate: any index, or that of another locate.
pub fn other_list(b: &mut Book, j: &mut Journal) {
    let at = some_locate(b, j);
    let other = some_locate(b, j);
    let x = if b.random.chance(1, 2) {
        some_index(b)
    } else {
        j.word(other, Word::List)
    };
    j.set(at, Word::List, x);
}

// The next index of a list record: any index.
pub fn other_next(b: &mut Book, j: &mut Journal) {
    let at = some_listed(b);
    let x = some_index(b);
    j.set(at, Word::Next, x);
}
