// Side: a session table and the store behind it, as the words that calls are lent.

// How many parties there are, and how many sessions among them.
pub const PARTIES: usize = 17;

pub const SESSIONS: u32 = PARTIES as u32 - 1;

// How many words a party has, the header, an entry and a record.
pub const SESSION_WORDS: usize = 15;

pub const HEADER_WORDS: usize = 16;

pub const ENTRY_WORDS: usize = 3;

pub const RECORD_WORDS: usize = 20;

// The words of a party: the one that is not 0 where it is begun, its number in the order of begins, and the one that is not 0 where it is asked.
const BEGUN: usize = 0;

const ORDER: usize = 13;

const ASKED: usize = 14;

// The words of the session table.
pub const TABLE: usize = PARTIES * SESSION_WORDS;

// The words of the largest store, of 32 entries and 700 records. A store is lent up to 19 words more, that make no record.
pub const LARGEST: usize = HEADER_WORDS + ENTRY_WORDS * 32 + RECORD_WORDS * 700;

// The store, and some words more that no call is lent.
const ROOM: usize = LARGEST + 64;

// A party's record.
pub type Row = [u32; SESSION_WORDS];

#[derive(Clone, Copy, PartialEq, Eq)]
pub struct Side {
    pub table: [Row; PARTIES],
    pub store: [u32; ROOM],
}

impl Side {
    // All words are 0.
    pub fn new() -> Self {
        Side {
            table: [[0; SESSION_WORDS]; PARTIES],
            store: [0; ROOM],
        }
    }

    // Is session p begun?
    pub fn is_begun(&self, p: u32) -> bool {
        p != 0 && self.party_word(p, BEGUN) != 0
    }

    // The number of party p in the order of begins.
    pub fn order(&self, p: u32) -> u32 {
        self.party_word(p, ORDER)
    }

    pub fn set_order(&mut self, p: u32, x: u32) {
        self.table[p as usize % PARTIES][ORDER] = x;
    }

    // The mark of party p, which is not 0 where it is asked.
    pub fn set_mark(&mut self, p: u32, x: u32) {
        self.table[p as usize % PARTIES][ASKED] = x;
    }

    pub fn is_asked(&self, p: u32) -> bool {
        self.party_word(p, ASKED) != 0
    }

    fn party_word(&self, p: u32, k: usize) -> u32 {
        self.table[p as usize % PARTIES][k % SESSION_WORDS]
    }

    // The word at a place, counted through the table and on through the store. There is none outside.
    pub fn word(&self, at: usize) -> u32 {
        if at < TABLE {
            return self.table[at / SESSION_WORDS][at % SESSION_WORDS];
        }
        self.store.get(at - TABLE).copied().unwrap_or(0)
    }

    pub fn set_word(&mut self, at: usize, x: u32) {
        if at < TABLE {
            self.table[at / SESSION_WORDS][at % SESSION_WORDS] = x;
        } else if at - TABLE < ROOM {
            self.store[at - TABLE] = x;
        }
    }

    // Is every word of the store the old one's, from this one on?
    pub fn is_kept_from(&self, old: &Side, at: usize) -> bool {
        self.store.get(at..) == old.store.get(at..)
    }

    // Is every word the old one's, but the mark of party p?
    pub fn is_kept_but_mark(&self, old: &Side, p: u32) -> bool {
        let mut marked = *old;
        marked.set_mark(p, self.party_word(p, ASKED));
        *self == marked
    }

    // Is the record of each party the old one's that was asked before?
    pub fn are_asked_kept(&self, old: &Side) -> bool {
        self.table
            .iter()
            .zip(old.table.iter())
            .all(|(row, before)| before[ASKED] == 0 || row == before)
    }
}
