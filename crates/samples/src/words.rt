// Words: a session table and a store as one run of words, and where each lies (docs/STORE.md).
//
// A line may name any word by its numbers, one behind the store too. So table, store and what is behind them stay one array, in which places are counted
// through; what lies outside is neither read nor written.

// How many parties there are, and how many words a party has, the header, an entry and a record.
pub const PARTIES: usize = 17;

pub const SESSION_WORDS: usize = 15;

pub const HEADER_WORDS: usize = 16;

pub const ENTRY_WORDS: usize = 3;

const RECORD_WORDS: usize = 20;

// The session table; then a store, with room for one of 4,097 records; and 10 words that no sample uses.
pub const WORDS: usize = BEHIND + 10;

// Where the store begins, how many words it has at most, and where the words behind it begin.
pub const STORE: usize = PARTIES * SESSION_WORDS;

const ROOM: usize = 82000;

pub const BEHIND: usize = STORE + ROOM;

// Where an entry and a record with number 0 would lie, were there such.
const NO_ENTRY: usize = STORE + HEADER_WORDS - ENTRY_WORDS;

const NO_RECORD: usize = STORE + HEADER_WORDS - RECORD_WORDS;

// A party's record.
pub type Row = [u32; SESSION_WORDS];

#[derive(Clone, Copy)]
pub struct Words {
    words: [u32; WORDS],
}

// Where word k of party p lies, and of entry e.
pub fn party_place(p: u32, k: u32) -> usize {
    SESSION_WORDS * p as usize + k as usize
}

pub fn entry_place(e: u32, k: u32) -> usize {
    NO_ENTRY + ENTRY_WORDS * e as usize + k as usize
}

impl Words {
    // All words are 0.
    pub fn new() -> Self {
        Words { words: [0; WORDS] }
    }

    pub fn get(&self, at: usize) -> u32 {
        self.words.get(at).copied().unwrap_or(0)
    }

    pub fn set(&mut self, at: usize, x: u32) {
        if at < WORDS {
            self.words[at] = x;
        }
    }

    // The word at this place becomes what f makes of it.
    pub fn change<F: FnOnce(u32) -> u32>(&mut self, at: usize, f: F)
        requires { F.IsAlwaysCallable f }
    {
        self.set(at, f(self.get(at)));
    }

    // Word k of the header.
    pub fn header(&self, k: usize) -> u32 {
        self.get(STORE + k % HEADER_WORDS)
    }

    // The record of a party.
    pub fn row(&self, p: usize) -> Row {
        let from = SESSION_WORDS * (p % PARTIES);
        std::array::from_fn(|k| self.get(from + k % SESSION_WORDS))
    }

    pub fn set_field(&mut self, p: u32, k: u32, x: u32) {
        self.set(party_place(p, k), x);
    }

    // Where word k of record i lies, by the header's number of entries.
    pub fn record_place(&self, i: u32, k: u32) -> usize {
        let entries = ENTRY_WORDS * self.header(0) as usize;
        NO_RECORD + entries + RECORD_WORDS * i as usize + k as usize
    }

    pub fn record_word(&self, i: u32, k: u32) -> u32 {
        self.get(self.record_place(i, k))
    }

    pub fn set_record(&mut self, i: u32, k: u32, x: u32) {
        self.set(self.record_place(i, k), x);
    }

    // How many words the store has: so many, or those that its header speaks of where that is 0.
    pub fn store_words(&self, said: u32) -> u32 {
        if said != 0 {
            return said;
        }
        let entries = ENTRY_WORDS * self.header(0) as usize;
        let records = RECORD_WORDS * self.header(1) as usize;
        (HEADER_WORDS + entries + records).min(ROOM) as u32
    }

    // A store of so many words; all words where there are not so many.
    pub fn store(&self, words: u32) -> &[u32] {
        let end = STORE + words as usize;
        self.words.get(STORE..end).unwrap_or(&self.words)
    }
}

// The bit of session p in a holders word.
pub fn bit(p: u32) -> u32 {
    if p == 0 {
        return 0;
    }
    1u32.checked_shl(p - 1).unwrap_or(0)
}
