// A journal's reader: the bytes of a journal and a place in them, and the record that stands there.
//
// The work is done by `record_at` and `next_at`, functions of a slice and a number. A Reader's methods are thin; whoever walks a journal calls `read` and
// `follow`, which have plain parameters.
#![tactic(auto)]

ghost use Rattle.std.specs.Prelude.{◌≡◌, ◌+◌, ◌≤◌, ◌<◌, length};
ghost use Rattle.journal_reader.specs.Record.{word_at, record_from, record_at};
ghost use Rattle.journal_reader.specs.Kinds.{kind_of};

// A record: eight words. In a list record `run` is the key and `code` the entry.
#[derive(Clone, Copy, Default, PartialEq, Eq, Debug)]
pub struct Record {
    // The index of the next record of the chain; 0 at its end.
    pub next: u32,
    pub run: u32,
    pub code: u32,
    pub entry: u32,
    pub first: u32,
    pub second: u32,
    pub answer: u32,
    pub list: u32,
}

// What a record of the main chain is, by its code.
#[derive(Clone, Copy, PartialEq, Eq, Debug)]
pub enum Kind {
    Read,
    Write,
    Insert,
    Remove,
    Locate,
    Commit,
}

impl Record {
    // None where the code is none of document 02's.
    pub fn kind(self) -> Option<Kind>
        ensures { result ≡ kind_of self.code }
    {
        match self.code {
            1 => Some(Kind::Read),
            2 => Some(Kind::Write),
            3 => Some(Kind::Insert),
            4 => Some(Kind::Remove),
            5 => Some(Kind::Locate),
            255 => Some(Kind::Commit),
            _ => None,
        }
    }
}

// The word from byte i on, the lowest byte first.
#[tactic(auto, unfolding(crate::specs::Record::word_at))]
fn word_at(bytes: &[u8], i: usize) -> u32
    requires { i + 4 ≤ length bytes.now }
    ensures { result ≡ word_at bytes.now i }
{
    u32::from_le_bytes([bytes[i], bytes[i + 1], bytes[i + 2], bytes[i + 3]])
}

// The eight words from byte i on.
#[tactic(auto, unfolding(crate::specs::Record::record_from))]
fn record_from(bytes: &[u8], i: usize) -> Record
    requires { i + 32 ≤ length bytes.now }
    ensures { result ≡ record_from bytes.now i }
{
    Record {
        next: word_at(bytes, i),
        run: word_at(bytes, i + 4),
        code: word_at(bytes, i + 8),
        entry: word_at(bytes, i + 12),
        first: word_at(bytes, i + 16),
        second: word_at(bytes, i + 20),
        answer: word_at(bytes, i + 24),
        list: word_at(bytes, i + 28),
    }
}

// The record of an index, counted from 1; one of zeros outside the file.
#[tactic(auto, unfolding(crate::specs::Record::record_at, crate::specs::Record::in_file))]
pub fn record_at(bytes: &[u8], at: usize) -> Record
    ensures { result ≡ record_at bytes.now at }
{
    if 1 <= at && at <= bytes.len() / 32 {
        record_from(bytes, 32 * (at - 1))
    } else {
        Record::default()
    }
}

// The index of the record behind that one in its chain.
fn next_at(bytes: &[u8], at: usize) -> usize
    ensures { result ≡ (record_at bytes.now at).next }
{
    record_at(bytes, at).next as usize
}

// The bytes of a journal and a place in them: the index of a record, 0 at the end of a chain.
#[derive(Clone, Copy)]
pub struct Reader<'a> {
    pub bytes: &'a [u8],
    pub at: usize,
}

impl<'a> Reader<'a> {
    pub fn open(bytes: &'a [u8], at: usize) -> Reader<'a>
        ensures { (result.bytes ≡ bytes.entry) × (result.at ≡ at) }
    {
        Reader { bytes, at }
    }

    // The record at the reader's place.
    pub fn next_record(self) -> Record
        ensures { result ≡ record_at self.entry.bytes.now self.entry.at }
    {
        record_at(self.bytes, self.at)
    }

    // The reader behind that record: at the next one of its chain.
    pub fn moved(self) -> Reader<'a>
        ensures { (result.bytes ≡ self.entry.bytes) × (result.at ≡ (record_at self.entry.bytes.now self.entry.at).next) }
    {
        Reader {
            bytes: self.bytes,
            at: next_at(self.bytes, self.at),
        }
    }

    // Where the reader stands.
    pub fn place(self) -> usize
        ensures { result ≡ self.entry.at }
    {
        self.at
    }
}

// The record of an index, for callers with a plain slice.
pub fn read(bytes: &[u8], at: usize) -> Record
    ensures { result ≡ record_at bytes.now at }
{
    Reader::open(bytes, at).next_record()
}

// The index of the record behind that one in its chain, likewise: where a reader stands once it has moved.
pub fn follow(bytes: &[u8], at: usize) -> usize
    ensures { result ≡ (record_at bytes.now at).next }
{
    Reader::open(bytes, at).moved().place()
}
