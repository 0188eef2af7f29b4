// Content: the logical model of document 01: a value for each entry, a set of memberships, and what the requests of sessions do and answer.
use crate::random::with_word;
use crate::requests::{Code, Request};
use crate::words::bit;
use std::ops::RangeInclusive;

// How many values and how many memberships there is room for.
const VALUES: usize = 64;

const ROOM: usize = 1024;

// An entry in the group of a key.
#[derive(Clone, Copy, PartialEq, Eq)]
pub struct Membership {
    pub key: u32,
    pub entry: u32,
}

// A room of fixed size, since a run has no heap and what is aborted runs on a copy.
#[derive(Clone, Copy)]
pub struct Content {
    values: [u32; VALUES],
    memberships: [Option<Membership>; ROOM],
}

impl Content {
    // Every value is 0, and no group has a member.
    pub fn new() -> Self {
        Content {
            values: [0; VALUES],
            memberships: [None; ROOM],
        }
    }

    pub fn value(&self, e: u32) -> u32 {
        self.values.get(e as usize).copied().unwrap_or(0)
    }

    // The memberships, in places of which some are free.
    pub fn memberships(&self) -> &[Option<Membership>] {
        &self.memberships
    }

    // The members of a key, entry e as bit e - 1.
    pub fn members(&self, key: u32) -> u32 {
        let mut all = 0;
        for m in self.memberships.iter().flatten() {
            if m.key == key {
                all |= bit(m.entry.wrapping_sub(1));
            }
        }
        all
    }

    fn write(&mut self, e: u32, value: u32) {
        if (e as usize) < VALUES {
            self.values[e as usize] = value;
        }
    }

    // Puts something else into the first place that has this; was there such a place?
    fn replace(&mut self, old: Option<Membership>, new: Option<Membership>) -> bool {
        for place in &mut self.memberships {
            if *place == old {
                *place = new;
                return true;
            }
        }
        false
    }

    // Does it change anything?
    fn insert(&mut self, m: Membership) -> bool {
        !self.memberships.contains(&Some(m)) && self.replace(None, Some(m))
    }

    fn remove(&mut self, m: Membership) -> bool {
        self.replace(Some(m), None)
    }

    // The pairs that a locate lists, as one number.
    fn locate(&self, keys: RangeInclusive<u32>) -> u32 {
        let mut pairs = 0;
        for m in self.memberships.iter().flatten() {
            if keys.contains(&m.key) {
                pairs = with_pair(pairs, *m);
            }
        }
        pairs
    }

    // Does a request of a session, and says what it answers; of a locate, the pairs.
    pub fn run(&mut self, request: Request) -> u32 {
        let Request {
            code,
            entry,
            first,
            second,
        } = request;
        let m = Membership { key: first, entry };
        match Code::from_number(code) {
            Some(Code::Read) => self.value(entry),
            Some(Code::Write) => {
                self.write(entry, first);
                0
            }
            Some(Code::Insert) => self.insert(m) as u32,
            Some(Code::Remove) => self.remove(m) as u32,
            Some(Code::Locate) => self.locate(first..=second),
            Some(Code::Tidy) | None => 0,
        }
    }
}

// A set of pairs as one number, with one pair more.
pub fn with_pair(pairs: u32, m: Membership) -> u32 {
    pairs.wrapping_add(with_word(with_word(0, m.key), m.entry))
}
