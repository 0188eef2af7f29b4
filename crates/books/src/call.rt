// Call: a call with its party and numbers, and its answer.
use naive::{Progress, Refusal};
use schedules::requests::Request;

// The kinds of calls, in the order of the report.
#[derive(Clone, Copy, PartialEq, Eq)]
pub enum Kind {
    Format,
    Begin,
    Put,
    Step,
    Commit,
    Abort,
    Day,
    Ask,
    Recover,
}

// A format names how many words of the store it is lent, and a step how many of the list; the bytes of a day call are those that its party keeps.
#[derive(Clone, Copy)]
pub enum Call {
    Format { entries: u32, words: u32 },
    Begin(u32),
    Put(u32, Request),
    Step { party: u32, listed: u32 },
    Commit(u32),
    Abort(u32),
    Day(DayCall),
    Ask(u32),
    Recover,
}

#[derive(Clone, Copy)]
pub struct DayCall {
    pub party: u32,
    pub place: u32,
    pub entry: u32,
    pub driver: u32,
    pub start: u32,
}

impl Call {
    pub fn kind(self) -> Kind {
        match self {
            Call::Format { .. } => Kind::Format,
            Call::Begin(_) => Kind::Begin,
            Call::Put(..) => Kind::Put,
            Call::Step { .. } => Kind::Step,
            Call::Commit(_) => Kind::Commit,
            Call::Abort(_) => Kind::Abort,
            Call::Day(_) => Kind::Day,
            Call::Ask(_) => Kind::Ask,
            Call::Recover => Kind::Recover,
        }
    }

    // The party that makes it; 0 at a format and a recover, which have none.
    pub fn party(self) -> u32 {
        match self {
            Call::Format { .. } | Call::Recover => 0,
            Call::Begin(p) | Call::Commit(p) | Call::Abort(p) | Call::Ask(p) => p,
            Call::Put(p, _) => p,
            Call::Step { party, .. } => party,
            Call::Day(day) => day.party,
        }
    }
}

// What is said of a call: beside a wait the party that it names; of what is done the answer and, of a tidy, whether it removed; of a refusal its number and
// the one beside it.
#[derive(Clone, Copy, PartialEq, Eq)]
pub enum Said {
    Ok,
    More,
    Wait(u32),
    Done { answer: u32, beside: u32 },
    Refused { by: u32, beside: u32 },
}

impl Said {
    // What is said where nothing was called.
    pub const UNSERVED: Said = Said::Refused { by: 0, beside: 0 };

    // The answer's word, by its place in the report.
    pub fn word(self) -> u32 {
        match self {
            Said::Ok => 0,
            Said::More => 1,
            Said::Wait(_) => 2,
            Said::Done { .. } => 3,
            Said::Refused { .. } => 4,
        }
    }

    // The number that stands next to the word, and the one beside that; 0 where there is none.
    pub fn number(self) -> u32 {
        match self {
            Said::Ok | Said::More => 0,
            Said::Wait(p) => p,
            Said::Done { answer, .. } => answer,
            Said::Refused { by, .. } => by,
        }
    }

    pub fn beside(self) -> u32 {
        match self {
            Said::Done { beside, .. } | Said::Refused { beside, .. } => beside,
            _ => 0,
        }
    }

    // A wait changes no word, and neither does a refusal but 11 and 12.
    pub fn is_still(self) -> bool {
        match self {
            Said::Wait(_) => true,
            Said::Refused { by, .. } => by != 11 && by != 12,
            _ => false,
        }
    }
}

// What the second model says: of a call that is no step, and of a step.
impl From<Refusal> for Said {
    fn from(refusal: Refusal) -> Said {
        Said::Refused {
            by: refusal.number(),
            beside: refusal.beside(),
        }
    }
}

impl From<Result<(), Refusal>> for Said {
    fn from(answer: Result<(), Refusal>) -> Said {
        match answer {
            Ok(()) => Said::Ok,
            Err(refusal) => Said::from(refusal),
        }
    }
}

impl From<Result<Progress, Refusal>> for Said {
    fn from(answer: Result<Progress, Refusal>) -> Said {
        match answer {
            Ok(Progress::More) => Said::More,
            Ok(Progress::Wait(q)) => Said::Wait(q),
            Ok(Progress::Done(answer)) => Said::Done { answer, beside: 0 },
            Ok(Progress::Tidied(answer, is_gone)) => Said::Done {
                answer,
                beside: is_gone as u32,
            },
            Err(refusal) => Said::from(refusal),
        }
    }
}

// What is said of a day call: its answer, and the place that the next one is handed, 0 at a refusal.
#[derive(Clone, Copy)]
pub struct Told {
    pub said: Said,
    pub place: u32,
}
