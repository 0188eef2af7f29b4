// Reading: what the words of a store say (docs/STORE.md).
ghost use Rattle.std.specs.Iterator.{at_most};

use crate::side::{ENTRY_WORDS, HEADER_WORDS, RECORD_WORDS, Side};
use crate::words::bit;

// The header's words: how many entries there are, the root, the levels of nodes, the descriptor of key 0, the first free record.
const ENTRIES: usize = 0;

const ROOT: usize = 2;

const HEIGHT: usize = 3;

const FIRST: usize = 4;

const FREE: usize = 5;

// The words of records: of all the next one in its chain; of descriptors the key, the holders of the key and of the gap behind it, and the first membership;
// of memberships the entry; of nodes how many sons, and the first of them.
const NEXT: usize = 0;

const KEY: usize = 1;

const LOCATE: usize = 2;

const UPDATE: usize = 3;

const GAP: usize = 4;

const GROUP: usize = 6;

const ENTRY: usize = 2;

const COUNT: usize = 1;

const SONS: usize = 9;

// How many nodes there is room for where they are counted.
const NODES: usize = 1024;

// An entry: its value and who holds it.
#[derive(Clone, Copy)]
pub struct Entry {
    pub value: u32,
    pub share: u32,
    pub exclusive: u32,
}

// A key, stored or not: who holds it, and its members, entry e as bit e - 1.
#[derive(Clone, Copy)]
pub struct Key {
    pub locate: u32,
    pub update: u32,
    pub members: u32,
    pub is_stored: bool,
}

// The records of a chain, at most so many.
#[derive(Clone, Copy)]
pub struct Chain<'a> {
    side: &'a Side,
    next: u32,
    left: u32,
}

impl Iterator for Chain<'_> {
    type Item = u32;

    ghost remaining = { λ c. at_most c.left };

    fn next(&mut self) -> Option<u32> {
        if self.left == 0 || self.next == 0 {
            return None;
        }
        let record = self.next;
        self.next = self.side.field(record, NEXT);
        self.left -= 1;
        Some(record)
    }
}

impl Side {
    fn store_word(&self, at: usize) -> u32 {
        self.store.get(at).copied().unwrap_or(0)
    }

    pub fn entry(&self, e: u32) -> Entry {
        let at = HEADER_WORDS + ENTRY_WORDS * e as usize;
        Entry {
            value: self.store_word(at - ENTRY_WORDS),
            share: self.store_word(at - ENTRY_WORDS + 1),
            exclusive: self.store_word(at - ENTRY_WORDS + 2),
        }
    }

    // Word k of record i. Record 0 is none, and has no words.
    fn field(&self, i: u32, k: usize) -> u32 {
        if i == 0 {
            return 0;
        }
        let entries = ENTRY_WORDS * self.store[ENTRIES] as usize;
        let records = RECORD_WORDS * (i as usize - 1);
        self.store_word(HEADER_WORDS + entries + records + k % RECORD_WORDS)
    }

    // The records from one on.
    fn chain(&self, first: u32) -> Chain<'_> {
        Chain {
            side: self,
            next: first,
            left: 4097,
        }
    }

    // All descriptors, in order of their keys.
    pub fn descriptors(&self) -> Chain<'_> {
        self.chain(self.store[FIRST])
    }

    // The free records.
    pub fn free(&self) -> Chain<'_> {
        self.chain(self.store[FREE])
    }

    // How many levels of nodes there are.
    pub fn height(&self) -> u32 {
        self.store[HEIGHT]
    }

    // The descriptor so many places behind the first; the last one where there are fewer.
    pub fn descriptor(&self, places: u32) -> u32 {
        let mut last = 0;
        for d in self.descriptors().take(places as usize + 1) {
            last = d;
        }
        last
    }

    pub fn key_of(&self, d: u32) -> u32 {
        self.field(d, KEY)
    }

    // The descriptor of the highest stored key that is not above this one.
    fn at_or_below(&self, key: u32) -> u32 {
        let mut last = 0;
        for d in self.descriptors() {
            if key < self.key_of(d) {
                break;
            }
            last = d;
        }
        last
    }

    // The first member of the group of descriptor d, if there is one.
    pub fn first_member(&self, d: u32) -> Option<u32> {
        match self.field(d, GROUP) {
            0 => None,
            i => Some(self.field(i, ENTRY)),
        }
    }

    // The members of the group of descriptor d, entry e as bit e - 1.
    fn members(&self, d: u32) -> u32 {
        let mut all = 0;
        for i in self.chain(self.field(d, GROUP)) {
            all |= bit(self.field(i, ENTRY).wrapping_sub(1));
        }
        all
    }

    pub fn key(&self, key: u32) -> Key {
        let d = self.at_or_below(key);
        if self.key_of(d) != key {
            return Key {
                locate: self.field(d, GAP),
                update: 0,
                members: 0,
                is_stored: false,
            };
        }
        Key {
            locate: self.field(d, LOCATE),
            update: self.field(d, UPDATE),
            members: self.members(d),
            is_stored: true,
        }
    }

    // How many nodes the tree has. Above the lowest level each is followed by its sons; the lowest level begins with the node over the descriptor of key 0.
    pub fn nodes(&self) -> u32 {
        let mut queue = [0u32; NODES];
        queue[0] = self.store[ROOT];
        let mut n = 1u32;
        for i in 0..NODES {
            let node = queue[i];
            if self.field(node, SONS) == self.store[FIRST] {
                break;
            }
            for k in 0..self.field(node, COUNT) as usize % 9 {
                if n < NODES as u32 {
                    queue[n as usize] = self.field(node, SONS + k);
                    n += 1;
                }
            }
        }
        n
    }
}
