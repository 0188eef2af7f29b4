// Book: the numbers of a run: what a round is like, what its calls told of each party, and what was counted.
use crate::counts::{Counter, Counts, Difference, What};
use schedules::content::Content;
use schedules::days::Day;
use schedules::logs::Log;
use schedules::random::Random;
use schedules::requests::{Code, Request};
use schedules::side::PARTIES;

// How many words the longest list has that a step is lent.
pub const LIST: usize = 1024;

// Which keys a round has: small ones, some of the whole range of words, or ones packed of two numbers.
#[derive(Clone, Copy, PartialEq, Eq)]
pub enum Keys {
    Small,
    Whole,
    Packed,
}

// What the sessions are mostly at.
#[derive(Clone, Copy, PartialEq, Eq)]
pub enum Phase {
    Grow,
    Mix,
    Shrink,
    Rise,
}

// How large a round is: how many sessions, entries and records it has; which keys, and how many; and how many words its store is lent.
#[derive(Clone, Copy)]
pub struct Size {
    pub sessions: u32,
    pub entries: u32,
    pub records: u32,
    pub keys: Keys,
    pub range: u32,
    pub words: u32,
}

// What calls and answers tell of a party: the request in hand and whether its last step waited; whether it is begun, and whether it is asked; what it has
// finished; and the day that it keeps.
#[derive(Clone, Copy)]
pub struct Party {
    pub request: Request,
    pub waited: bool,
    pub is_begun: bool,
    pub is_asked: bool,
    pub log: Log,
    pub day: Day,
}

impl Party {
    fn new() -> Self {
        Party {
            request: Request::new(Code::Read, 0, 0, 0),
            waited: false,
            is_begun: false,
            is_asked: false,
            log: Log::new(),
            day: Day::new(),
        }
    }

    // The session has ended, and keeps its day alone.
    pub fn end(&mut self) {
        self.waited = false;
        self.is_begun = false;
        self.is_asked = false;
        self.log.clear();
    }
}

// A round: the number of its last call; the last key of a rising row; whether a difference was found; the lists that store and model are lent.
#[derive(Clone, Copy)]
pub struct Round {
    pub number: u32,
    pub size: Size,
    pub phase: Phase,
    pub call: u32,
    pub risen: u32,
    pub is_stopped: bool,
    pub parties: [Party; PARTIES],
    pub store_list: [u32; LIST],
    pub model_list: [u32; LIST],
    // The words that a call with any words has and does not use; all 0 of another call.
    pub spare: Request,
    pub content: Content,
}

impl Round {
    // A round in which no call is made yet.
    pub fn new(number: u32, size: Size) -> Self {
        Round {
            number,
            size,
            phase: Phase::Grow,
            call: 0,
            risen: 0,
            is_stopped: false,
            parties: [Party::new(); PARTIES],
            store_list: [0; LIST],
            model_list: [0; LIST],
            spare: Request::default(),
            content: Content::new(),
        }
    }

    pub fn party(&self, p: u32) -> &Party {
        &self.parties[p as usize % PARTIES]
    }

    pub fn party_mut(&mut self, p: u32) -> &mut Party {
        &mut self.parties[p as usize % PARTIES]
    }
}

// The key of the last insert or remove that was chosen stays from round to round.
#[derive(Clone, Copy)]
pub struct Book {
    pub random: Random,
    pub round: Round,
    pub changed: Option<u32>,
    pub counts: Counts,
    pub first: Option<Difference>,
    pub differences: Counter,
}

impl Book {
    // A run of rounds, of which the first one begins.
    pub fn new(seed: u32) -> Self {
        let size = Size {
            sessions: 0,
            entries: 0,
            records: 0,
            keys: Keys::Small,
            range: 0,
            words: 0,
        };
        Book {
            random: Random::new(seed),
            round: Round::new(0, size),
            changed: None,
            counts: Counts::new(),
            first: None,
            differences: Counter::ZERO,
        }
    }

    // Tells a difference: what differs, the number of the store, the number of the model.
    pub fn differ(&mut self, what: What, store: u32, model: u32) {
        if self.first.is_none() {
            self.first = Some(Difference {
                round: self.round.number,
                call: self.round.call,
                what,
                store,
                model,
            });
        }
        self.differences.count();
        self.round.is_stopped = true;
    }

    pub fn same(&mut self, what: What, store: u32, model: u32) {
        if store != model {
            self.differ(what, store, model);
        }
    }
}
