// Table: the session table, and what its numbers mean.
use sessions::Session;

/// How many parties there are.
pub const PARTIES: usize = 17;

/// The session table: party 0 is the housekeeper.
pub type Table = [Session; PARTIES];

/// What a request asks for.
#[derive(Clone, Copy, PartialEq, Eq, Debug)]
pub enum Code {
    Read,
    Write,
    Insert,
    Remove,
    Locate,
    Tidy,
    Unknown,
}

impl From<u32> for Code {
    fn from(code: u32) -> Code {
        match code {
            1 => Code::Read,
            2 => Code::Write,
            3 => Code::Insert,
            4 => Code::Remove,
            5 => Code::Locate,
            6 => Code::Tidy,
            _ => Code::Unknown,
        }
    }
}

/// How far a request in hand is; None where there is none.
#[derive(Clone, Copy, PartialEq, Eq, Debug)]
pub enum Stage {
    None,
    Start,
    Enter,
    At,
    Change,
    Take,
    Unknown,
}

impl From<u32> for Stage {
    fn from(stage: u32) -> Stage {
        match stage {
            0 => Stage::None,
            1 => Stage::Start,
            2 => Stage::Enter,
            3 => Stage::At,
            4 => Stage::Change,
            5 => Stage::Take,
            _ => Stage::Unknown,
        }
    }
}

/// Is session p begun, one from 1 to 16?
pub fn is_begun(t: &Table, p: usize) -> bool {
    p != 0 && t.get(p).is_some_and(|x| x.begun != 0)
}

/// Is session p among the holders?
pub fn is_holder(holders: u32, p: usize) -> bool {
    1 <= p && p < PARTIES && holders >> (p - 1) & 1 == 1
}
