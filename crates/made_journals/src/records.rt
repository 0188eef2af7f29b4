// Records: the bytes of a journal and the words of its records. Records count from 1, words of a record from 0.
ghost use Rattle.std.specs.Prelude.{◌≡◌, ◌≤◌, length};

// Two records more than a journal may have.
pub const BYTES: usize = 65600;

// The words of a record.
#[derive(Clone, Copy, PartialEq, Eq, Debug)]
pub enum Word {
    Next,
    Run,
    Code,
    Entry,
    First,
    Second,
    Answer,
    List,
}

// The codes of a read, a locate and a commit: numbers, since the code of a record may be any word, and many that are made are none of these.
pub const READ: u32 = 1;

pub const LOCATE: u32 = 5;

pub const COMMIT: u32 = 255;

// The highest key and the highest entry.
pub const TOP_KEY: u32 = 4294967294;

pub const TOP_ENTRY: u32 = 1024;

#[derive(Clone, Copy)]
pub struct Journal {
    bytes: [u8; BYTES],
}

impl Word {
    // The words of a list record behind its next index.
    pub const PAIR_KEY: Word = Word::Run;

    pub const PAIR_ENTRY: Word = Word::Code;

    // Word k, the last one for all above.
    pub fn at(k: u32) -> Word {
        match k {
            0 => Word::Next,
            1 => Word::Run,
            2 => Word::Code,
            3 => Word::Entry,
            4 => Word::First,
            5 => Word::Second,
            6 => Word::Answer,
            _ => Word::List,
        }
    }
}

// Where a word of a record begins. There are records of all numbers, and those that a journal has not lie outside or come again.
fn start(record: u32, word: Word) -> usize {
    let first = record.wrapping_sub(1) << 5;
    first as usize + 4 * (word as usize)
}

impl Journal {
    pub fn new() -> Self {
        Journal { bytes: [0; BYTES] }
    }

    // The first n bytes, or all.
    pub fn part(&self, n: u32) -> &[u8]
        ensures { n ≤ 65600 → length result.now ≡ n }
    {
        let end = n as usize;
        if end <= BYTES {
            &self.bytes[..end]
        } else {
            &self.bytes
        }
    }

    // What lies outside reads as 0.
    pub fn word(&self, record: u32, word: Word) -> u32 {
        let start = start(record, word);
        if start <= BYTES {
            if let [a, b, c, d, ..] = &self.bytes[start..] {
                return u32::from_le_bytes([*a, *b, *c, *d]);
            }
        }
        0
    }

    // A write to what lies outside does nothing.
    pub fn set(&mut self, record: u32, word: Word, x: u32) {
        let start = start(record, word);
        if start <= BYTES - 4 {
            self.bytes[start..start + 4].copy_from_slice(&x.to_le_bytes());
        }
    }

    // Copies the first n bytes of another. What lies behind them stays.
    pub fn copy_from(&mut self, other: &Journal, n: u32) {
        let end = n as usize;
        if end <= BYTES {
            self.bytes[..end].copy_from_slice(&other.bytes[..end]);
        }
    }
}
