// Requests: what a put hands over.

// What a request asks for; as a number, its code.
#[derive(Clone, Copy, PartialEq, Eq)]
pub enum Code {
    Read = 1,
    Write,
    Insert,
    Remove,
    Locate,
    Tidy,
}

impl Code {
    pub fn from_number(code: u32) -> Option<Code> {
        match code {
            1 => Some(Code::Read),
            2 => Some(Code::Write),
            3 => Some(Code::Insert),
            4 => Some(Code::Remove),
            5 => Some(Code::Locate),
            6 => Some(Code::Tidy),
            _ => None,
        }
    }
}

// A request as it is put, whose numbers may be any words: a put of a wrong one is refused. An entry stands in entry, a write's value and a key in first, the
// end of a locate in second.
#[derive(Clone, Copy, PartialEq, Eq, Default)]
pub struct Request {
    pub code: u32,
    pub entry: u32,
    pub first: u32,
    pub second: u32,
}

impl Request {
    pub fn new(code: Code, entry: u32, first: u32, second: u32) -> Self {
        Request {
            code: code as u32,
            entry,
            first,
            second,
        }
    }
}
