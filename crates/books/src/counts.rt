// Counts: what is counted in a run, and the first difference.
use crate::call::{Kind, Said};
use std::fmt;

#[derive(Clone, Copy)]
pub struct Counter(u32);

impl Counter {
    pub const ZERO: Counter = Counter(0);

    // One more.
    pub fn count(&mut self) {
        self.0 = self.0.wrapping_add(1);
    }

    // The greatest number so far.
    pub fn raise(&mut self, x: u32) {
        self.0 = self.0.max(x);
    }

    pub fn number(self) -> u32 {
        self.0
    }
}

// One more of a row, where it has a counter of this number.
fn count_in(row: &mut [Counter], i: u32) {
    if let Some(counter) = row.get_mut(i as usize) {
        counter.count();
    }
}

#[derive(Clone, Copy)]
pub struct Counts {
    // Calls by their kinds, answers by their words, refusals by their numbers.
    pub made: [Counter; 9],
    pub answered: [Counter; 5],
    pub refused: [Counter; 22],
    // Calls, which are also the lists compared.
    pub calls: Counter,
    pub views: Counter,
    pub keys: Counter,
    // Calls that had to change nothing.
    pub unchanged: Counter,
    // Replays of committed and of other sessions, and finished requests.
    pub committed: Counter,
    pub unfinished: Counter,
    pub requests: Counter,
    pub contents: Counter,
    pub copies_aborted: Counter,
    pub copies_recovered: Counter,
    // Questions to the checker, and copies with a word changed that it found sound and unsound.
    pub checked: Counter,
    pub damaged_sound: Counter,
    pub damaged_unsound: Counter,
    // The greatest height and number of descriptors.
    pub height: Counter,
    pub descriptors: Counter,
    // Of the day calls that were not refused: those that put a request, those that were a step; the steps that finished a request before the day's last, and
    // the last.
    pub day_puts: Counter,
    pub day_steps: Counter,
    pub day_requests: Counter,
    pub days: Counter,
    // How often the parties were given other numbers in the order of begins.
    pub spread: Counter,
}

impl Counts {
    pub fn new() -> Self {
        Counts {
            made: [Counter::ZERO; 9],
            answered: [Counter::ZERO; 5],
            refused: [Counter::ZERO; 22],
            calls: Counter::ZERO,
            views: Counter::ZERO,
            keys: Counter::ZERO,
            unchanged: Counter::ZERO,
            committed: Counter::ZERO,
            unfinished: Counter::ZERO,
            requests: Counter::ZERO,
            contents: Counter::ZERO,
            copies_aborted: Counter::ZERO,
            copies_recovered: Counter::ZERO,
            checked: Counter::ZERO,
            damaged_sound: Counter::ZERO,
            damaged_unsound: Counter::ZERO,
            height: Counter::ZERO,
            descriptors: Counter::ZERO,
            day_puts: Counter::ZERO,
            day_steps: Counter::ZERO,
            day_requests: Counter::ZERO,
            days: Counter::ZERO,
            spread: Counter::ZERO,
        }
    }

    // A call of a kind was made, and answered.
    pub fn count_call(&mut self, kind: Kind, said: Said) {
        self.calls.count();
        count_in(&mut self.made, kind as u32);
        count_in(&mut self.answered, said.word());
        if let Said::Refused { by, .. } = said {
            count_in(&mut self.refused, by);
        }
    }
}

// What may differ.
#[derive(Clone, Copy, PartialEq, Eq)]
pub enum What {
    Word,
    Number,
    Beside,
    Named,
    List,
    Value,
    Share,
    Exclusive,
    Locate,
    Update,
    Members,
    IsStored,
    Stored,
    Height,
    Free,
    Nodes,
    Touched,
    Beyond,
    Soundness,
    Commit,
    Unfinished,
    Abort,
    LogicalValue,
    LogicalMembers,
    Damage,
    Place,
    Order,
    Mark,
    Recover,
}

impl fmt::Display for What {
    fn fmt<W: fmt::Write>(&self, f: &mut fmt::Formatter<W>) -> fmt::Result {
        f.write_str(match self {
            What::Word => "the word of an answer",
            What::Number => "the number of an answer",
            What::Beside => "the number beside it",
            What::Named => "the party that a wait names",
            What::List => "the list",
            What::Value => "the value of an entry",
            What::Share => "the share holders of an entry",
            What::Exclusive => "the exclusive holder of an entry",
            What::Locate => "the locate holders of a key",
            What::Update => "the update holders of a key",
            What::Members => "the members of a key",
            What::IsStored => "whether a key is stored",
            What::Stored => "the number of stored keys",
            What::Height => "the height of the tree",
            What::Free => "the free count",
            What::Nodes => "the number of nodes",
            What::Touched => "a word that had to stay",
            What::Beyond => "a word behind the store",
            What::Soundness => "soundness",
            What::Commit => "a committed session's answer",
            What::Unfinished => "an aborted session's answer",
            What::Abort => "the abort of a copy",
            What::LogicalValue => "the logical value of an entry",
            What::LogicalMembers => "the logical members of a key",
            What::Damage => "the soundness of a damaged copy",
            What::Place => "the place of a day",
            What::Order => "the number of a party in the order of begins",
            What::Mark => "whether a party is asked",
            What::Recover => "the recover of a copy",
        })
    }
}

// A difference: the call of a round at which it was found, what differs, and the numbers of store and model.
#[derive(Clone, Copy)]
pub struct Difference {
    pub round: u32,
    pub call: u32,
    pub what: What,
    pub store: u32,
    pub model: u32,
}
