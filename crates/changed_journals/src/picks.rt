// Picks: where a journal is changed, and to what.
use made_journals::book::Book;
use made_journals::records::{Journal, LOCATE, TOP_ENTRY, TOP_KEY, Word};

pub fn some_main(b: &mut Book) -> u32 {
    let i = b.random.below(b.main);
    b.record(i)
}

pub fn some_used(b: &mut Book) -> u32 {
    let i = b.random.below(b.used);
    b.record(i)
}

// A record of a list. Where no record is a list's alone, one of the main chain.
pub fn some_listed(b: &mut Book) -> u32 {
    let n = b.used.wrapping_sub(b.main);
    if n == 0 {
        return some_main(b);
    }
    let i = b.random.below(n);
    b.record(b.main.wrapping_add(i))
}

// Which record of the main chain is the first from this one on that has this code and is of a committed run, the last being followed by the first; this
// one if there is none.
pub fn coded_from(b: &Book, j: &Journal, from: u32, code: u32) -> u32 {
    for i in 0..b.main {
        let k = from.wrapping_add(i);
        let line = if k < b.main {
            k
        } else {
            k.wrapping_sub(b.main)
        };
        if j.word(b.record(line), Word::Code) == code && b.is_answered(line) {
            return line;
        }
    }
    from
}

// A locate of a committed run, if there is one.
pub fn some_locate(b: &mut Book, j: &Journal) -> u32 {
    let from = b.random.below(b.main);
    b.record(coded_from(b, j, from, LOCATE))
}

// 0, a record, or the index behind the last one.
pub fn some_index(b: &mut Book) -> u32 {
    b.random.below(b.records.wrapping_add(2))
}

// A number that is the last allowed one or the first that is not, or one that the journal is about.
pub fn some_number(b: &mut Book) -> u32 {
    match b.random.below(10) {
        0 => 0,
        1 => 1,
        2 => TOP_ENTRY,
        3 => TOP_ENTRY + 1,
        4 => TOP_KEY,
        5 => TOP_KEY + 1,
        6 => b.some_entry(),
        _ => b.some_key(),
    }
}

// A code, or a number that is near one or has one for its lowest byte.
pub fn some_code(b: &mut Book) -> u32 {
    match b.random.below(8) {
        0 => 254,
        1 => 256,
        2 => b.random.below(6).wrapping_add(256),
        3 => b.random.next() | 255,
        4 => 255,
        _ => b.random.below(7),
    }
}
