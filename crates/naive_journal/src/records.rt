// Records: the words of a journal's records. Records count from 1, words of a record from 0. What lies outside reads as 0.
use crate::held::Member;

// The most records that a journal has.
pub const RECORDS: usize = 2048;

#[derive(Clone, Copy, PartialEq, Eq, Debug)]
pub enum Code {
    Read,
    Write,
    Insert,
    Remove,
    Locate,
    Commit,
}

// The bytes of a journal: 1 to 2,048 whole records.
#[derive(Clone, Copy)]
pub struct Journal<'a>(&'a [u8]);

// The bytes of a record, and those behind it.
#[derive(Clone, Copy, Default)]
pub struct Record<'a>(&'a [u8]);

impl<'a> Journal<'a> {
    pub fn new(bytes: &'a [u8]) -> Option<Self> {
        let is_whole = !bytes.is_empty() && bytes.len() <= 32 * RECORDS && bytes.len() % 32 == 0;
        if is_whole { Some(Journal(bytes)) } else { None }
    }

    // The record with a number, if there is one.
    pub fn find(self, number: u32) -> Option<Record<'a>> {
        let index = number.checked_sub(1)? as usize;
        let start = 32 * index;
        if start < self.0.len() {
            Some(Record(&self.0[start..]))
        } else {
            None
        }
    }

    // The record with a number; where there is none, one whose words are 0.
    pub fn record(self, number: u32) -> Record<'a> {
        self.find(number).unwrap_or_default()
    }
}

impl Record<'_> {
    // Word k.
    fn word(self, k: usize) -> u32 {
        if k < 8 {
            let start = 4 * k;
            if start <= self.0.len() {
                if let [a, b, c, d, ..] = &self.0[start..] {
                    return u32::from_le_bytes([*a, *b, *c, *d]);
                }
            }
        }
        0
    }

    pub fn next(self) -> u32 {
        self.word(0)
    }

    pub fn run(self) -> u32 {
        self.word(1)
    }

    // None for a number that is no code.
    pub fn code(self) -> Option<Code> {
        match self.word(2) {
            1 => Some(Code::Read),
            2 => Some(Code::Write),
            3 => Some(Code::Insert),
            4 => Some(Code::Remove),
            5 => Some(Code::Locate),
            255 => Some(Code::Commit),
            _ => None,
        }
    }

    pub fn entry(self) -> u32 {
        self.word(3)
    }

    pub fn first(self) -> u32 {
        self.word(4)
    }

    pub fn second(self) -> u32 {
        self.word(5)
    }

    pub fn answer(self) -> u32 {
        self.word(6)
    }

    pub fn list(self) -> u32 {
        self.word(7)
    }

    // The pair of a list record, behind its next index.
    pub fn pair(self) -> Member {
        Member {
            key: self.word(1),
            entry: self.word(2),
        }
    }
}
