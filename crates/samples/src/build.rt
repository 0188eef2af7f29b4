// Build: the parts of a store that take more than the numbers of a line as they stand. Each helper writes the words that its part uses, and no other.
use crate::words::{BEHIND, ENTRY_WORDS, HEADER_WORDS, SESSION_WORDS, STORE, Words, party_place};

// The words of records.
pub const NEXT: u32 = 0;

pub const LATCH: u32 = 0;

const COUNT: u32 = 1;

const BOUND: u32 = 1;

const SON: u32 = 8;

pub const KEY: u32 = 1;

pub const LOCATE: u32 = 2;

pub const UPDATE: u32 = 3;

pub const GAP: u32 = 4;

pub const PINS: u32 = 5;

const MEMBER: u32 = 6;

const BACK: u32 = 1;

const KIND: u32 = 1;

pub const ENTRY: u32 = 2;

pub const SAVED: u32 = 3;

pub const GROUP: u32 = 4;

// The words of entries.
pub const SHARE: u32 = 1;

pub const EXCLUSIVE: u32 = 2;

// The fields of a session record.
pub const BEGUN: u32 = 0;

pub const CODE: u32 = 1;

pub const STAGE: u32 = 5;

pub const TARGET: u32 = 6;

pub const AT: u32 = 7;

pub const LEVEL: u32 = 8;

pub const LOW: u32 = 9;

pub const HIGH: u32 = 10;

pub const LAST: u32 = 11;

const UNDO: u32 = 12;

pub const ORDER: u32 = 13;

const ASKED: u32 = 14;

// A word that no node or descriptor uses: here the highest key below it, which its father's boundary is made of.
const HIGHEST: u32 = 17;

// The stages of a party: it puts a request, is to enter the root, has come to a node, is to change the group of first, or to take.
#[derive(Clone, Copy)]
pub enum Stage {
    Start = 1,
    Enter,
    Here,
    Change,
    Take,
}

// What an undo record takes back: a write, a member added, one taken out.
#[derive(Clone, Copy)]
pub enum UndoKind {
    Write = 1,
    Added,
    Out,
}

// The words of table and store, of a party, of the header and of an entry, as words: a base counts through some 82,000 places, and counts them faster so.
const ALL: u32 = BEHIND as u32;

const TABLE: u32 = STORE as u32;

const PARTY: u32 = SESSION_WORDS as u32;

const HEADER: u32 = HEADER_WORDS as u32;

const ENTRY_SIZE: u32 = ENTRY_WORDS as u32;

// Word i of the session table where nobody has begun, with x where a field is not in use. Party 0 uses neither begun mark nor chain.
fn idle(i: u32, x: u32) -> u32 {
    let is_session = PARTY <= i;
    match i % PARTY {
        STAGE | ASKED => 0,
        BEGUN | UNDO if is_session => 0,
        _ => x,
    }
}

// Word i of a store of m entries and r records where nothing is held, with x elsewhere.
fn unheld(i: u32, m: u32, r: u32, x: u32) -> u32 {
    if i < HEADER {
        return match i {
            0 => m,
            1 => r,
            _ => x,
        };
    }
    let at = i - HEADER;
    if m <= at / ENTRY_SIZE {
        return x;
    }
    if at % ENTRY_SIZE == 0 { x } else { 0 }
}

// M entries and R records, nothing held, nobody begun; the other words are zeros or, where junk is not 0, small numbers that could be taken
// for record numbers.
pub fn base(w: &mut Words, m: u32, r: u32, junk: u32) {
    for i in 0..ALL {
        let x = if junk == 0 {
            0
        } else {
            2 + (4 * (i % 13) + 1) % 13
        };
        let y = if i < TABLE {
            idle(i, x)
        } else {
            unheld(i - TABLE, m, r, x)
        };
        w.set(i as usize, y);
    }
}

// Record i is a descriptor of a key, held by nobody and without members.
pub fn descriptor(w: &mut Words, i: u32, key: u32, next: u32) {
    w.set_record(i, NEXT, next);
    w.set_record(i, KEY, key);
    for k in LOCATE..=MEMBER {
        w.set_record(i, k, 0);
    }
    w.set_record(i, HIGHEST, key);
}

// Record i is a node over the count records from .. on.
pub fn node(w: &mut Words, i: u32, from: u32, count: u32) {
    w.set_record(i, LATCH, 0);
    w.set_record(i, COUNT, count);
    let mut son = from;
    for j in 1..=count.min(8) {
        let highest = w.record_word(son, HIGHEST);
        w.set_record(i, SON + j, son);
        let k = if j < count { BOUND + j } else { HIGHEST };
        w.set_record(i, k, highest);
        son = son.wrapping_add(1);
    }
}

// The records from .. on are free.
pub fn free_from(w: &mut Words, from: u32) {
    let mut next = 0;
    for i in (from.max(1)..=w.header(1)).rev() {
        w.set_record(i, NEXT, next);
        next = i;
    }
    w.set(STORE + 5, next);
}

// Record i is a membership of an entry, the first of its group.
pub fn member(w: &mut Words, i: u32, group: u32, entry: u32) {
    w.set_record(i, ENTRY, entry);
    let next = w.record_word(group, MEMBER);
    w.set_record(i, NEXT, next);
    w.set_record(i, BACK, 0);
    w.set_record(group, MEMBER, i);
    if next != 0 {
        w.set_record(next, BACK, i);
    }
}

// Record i is an undo record, the newest of session p.
pub fn undo(w: &mut Words, kind: UndoKind, p: u32, i: u32) {
    let at = party_place(p, UNDO);
    w.set_record(i, NEXT, w.get(at));
    w.set_record(i, KIND, kind as u32);
    w.set(at, i);
}
