// Store: where the words of a store lie (docs/STORE.md). A word that is not there reads as 0.
ghost use Rattle.std.specs.Prelude.{◌≤◌};

/// How many words the header has, an entry and a record, and how many entries and records a store has at most.
const HEADER_WORDS: usize = 16;

const ENTRY_WORDS: usize = 3;

const RECORD_WORDS: usize = 20;

pub const MOST_ENTRIES: u32 = 1024;

const MOST_RECORDS: u32 = 4096;

/// How many boundaries a node has at most, and the places behind which they and its sons lie.
const BOUNDS: u32 = 7;

const BOUND: u32 = 1;

const SON: u32 = 8;

/// The upper infinity: no key.
pub const INFINITY: u32 = u32::MAX;

/// What an undo record takes back.
#[derive(Clone, Copy, PartialEq, Eq, Debug)]
pub enum Change {
    Write,
    Added,
    Taken,
    Unknown,
}

impl From<u32> for Change {
    fn from(kind: u32) -> Change {
        match kind {
            1 => Change::Write,
            2 => Change::Added,
            3 => Change::Taken,
            _ => Change::Unknown,
        }
    }
}

/// The words of a store.
#[derive(Clone, Copy)]
pub struct Store<'a> {
    words: &'a [u32],
}

impl<'a> Store<'a> {
    pub fn new(words: &'a [u32]) -> Store<'a> {
        Store { words }
    }

    fn word(&self, at: usize) -> u32 {
        self.words.get(at).copied().unwrap_or(0)
    }

    pub fn entries(&self) -> u32 {
        self.word(0)
    }

    /// Never more than a store can have.
    pub fn records(&self) -> u32
        ensures { result ≤ 4096 }
    {
        self.word(1).min(MOST_RECORDS)
    }

    pub fn root(&self) -> u32 {
        self.word(2)
    }

    pub fn height(&self) -> u32 {
        self.word(3)
    }

    pub fn first_descriptor(&self) -> u32 {
        self.word(4)
    }

    pub fn first_free(&self) -> u32 {
        self.word(5)
    }

    /// "the header's M and R are those format gives for this length"
    pub fn are_sizes(&self) -> bool {
        let m = self.entries();
        let start = HEADER_WORDS + ENTRY_WORDS * m as usize;
        match self.words.len().checked_sub(start) {
            Some(words) => {
                let room = words / RECORD_WORDS;
                let most = room.min(MOST_RECORDS as usize);
                1 <= m && m <= MOST_ENTRIES && 8 <= room && self.word(1) as usize == most
            }
            None => false,
        }
    }

    /// Word k of entry e.
    fn entry_word(&self, e: u32, k: u32) -> u32 {
        if e < 1 || self.entries() < e {
            return 0;
        }
        self.word(HEADER_WORDS + ENTRY_WORDS * (e as usize - 1) + k as usize)
    }

    pub fn share(&self, e: u32) -> u32 {
        self.entry_word(e, 1)
    }

    pub fn exclusive(&self, e: u32) -> u32 {
        self.entry_word(e, 2)
    }

    /// Word k of record i.
    fn record_word(&self, i: u32, k: u32) -> u32 {
        if i < 1 || self.records() < i {
            return 0;
        }
        let start = HEADER_WORDS + ENTRY_WORDS * self.entries() as usize;
        self.word(start + RECORD_WORDS * (i as usize - 1) + k as usize)
    }

    /// The next record of a chain.
    pub fn next(&self, i: u32) -> u32 {
        self.record_word(i, 0)
    }

    pub fn latch(&self, node: u32) -> u32 {
        self.record_word(node, 0)
    }

    /// How many sons a node has.
    pub fn count(&self, node: u32) -> u32 {
        self.record_word(node, 1)
    }

    /// The boundary behind son i of a node, from 1; there are 7 of them.
    pub fn bound(&self, node: u32, i: u32) -> u32 {
        if i <= BOUNDS {
            self.record_word(node, BOUND + i)
        } else {
            0
        }
    }

    /// Son i of a node, from 1.
    pub fn son(&self, node: u32, i: u32) -> u32 {
        self.record_word(node, SON.saturating_add(i))
    }

    pub fn key(&self, group: u32) -> u32 {
        self.record_word(group, 1)
    }

    pub fn locate(&self, group: u32) -> u32 {
        self.record_word(group, 2)
    }

    pub fn update(&self, group: u32) -> u32 {
        self.record_word(group, 3)
    }

    pub fn gap(&self, group: u32) -> u32 {
        self.record_word(group, 4)
    }

    pub fn pins(&self, group: u32) -> u32 {
        self.record_word(group, 5)
    }

    /// The first membership of a group.
    pub fn member(&self, group: u32) -> u32 {
        self.record_word(group, 6)
    }

    /// The membership before one.
    pub fn back(&self, member: u32) -> u32 {
        self.record_word(member, 1)
    }

    /// The entry of a membership or of an undo record.
    pub fn entry(&self, i: u32) -> u32 {
        self.record_word(i, 2)
    }

    pub fn change(&self, undo: u32) -> Change {
        Change::from(self.record_word(undo, 1))
    }

    /// The membership that an undo record names, and its group.
    pub fn undo_member(&self, undo: u32) -> u32 {
        self.record_word(undo, 3)
    }

    pub fn undo_group(&self, undo: u32) -> u32 {
        self.record_word(undo, 4)
    }
}
