// Outcomes: what a call answers, what a step leaves of its party's session record, and what a call leaves of the session table.
//
// specs/Said.antt sets out document 01's word and numbers for each case of an answer, specs/Refused.antt the number of each refusal; every promise uses
// them. It rests on `serial` for answers as they are told, on `sessions` for the record and the table.
#![tactic(auto)]

ghost use Rattle.std.specs.Prelude.{◌≡◌};
ghost use Rattle.outcomes.specs.Refused.{number, refused_for, day_refused_for};

use sessions::{PARTIES, Session};

// Why a call is refused; its number is what an answer tells.
#[derive(Clone, Copy, PartialEq, Eq, Debug)]
pub enum Refusal {
    // The table is not of 17 records.
    Table = 1,
    // Store or table is not sound.
    Unsound = 2,
    // A format's sizes.
    Sizes = 3,
    // No such party, or the housekeeper where a session is meant.
    Party = 4,
    // The session is begun already, or is not begun.
    Begun = 5,
    // No such request, or not for this party.
    Code = 6,
    // A request is in hand, or none is.
    Hand = 7,
    // No such entry.
    Entry = 8,
    // A key that is an infinity; of a day no such driver or start.
    Key = 9,
    // A locate's first key is above its second.
    Range = 10,
    // Too few records are free.
    Full = 11,
    // The list is too short for a locate's pairs.
    List = 12,
    // A day of an odd number of bytes.
    Odd = 13,
    // Bytes that are no day, or a place that is not where it stands.
    Day = 14,
    // The session is asked.
    Asked = 21,
    // Words of a batch that are no ask.
    NoAsk = 101,
    // Fewer answers than asks, or too many asks.
    Answers = 102,
    // Pairs and values that are no day's.
    NoDay = 103,
}

impl From<Refusal> for u32 {
    ghost from_gives = { λ refusal n. n ≡ number refusal };

    fn from(refusal: Refusal) -> u32 {
        refusal as u32
    }
}

// The first number of a refused answer stays a u32: an answer may be handed any number (packing::pack), and the theorems on answers that are read back
// from a number (packing's specs, unpacked) speak of every number, not only of those that Refusal names.
#[derive(Clone, Copy, PartialEq, Eq, Debug)]
pub enum Answer {
    Ok,
    More,
    // The party that is named.
    Wait(u32),
    // The answer of a request of code 1 to 5.
    Done(u32),
    // The answer of a tidy: the key, and 1 if its descriptor was removed.
    Tidied(u32, u32),
    // The refusal's number, and the number beside it.
    Refused(u32, u32),
}

#[derive(Clone, Copy)]
pub struct Moved {
    pub answer: Answer,
    pub session: Session,
}

impl From<Refusal> for Answer {
    ghost from_gives = { λ refusal answer. answer ≡ refused_for refusal };

    fn from(refusal: Refusal) -> Answer {
        Answer::Refused(refusal as u32, 0)
    }
}

// What a call leaves of the table, and its answer.
#[derive(Clone, Copy)]
pub struct Served {
    pub table: [Session; PARTIES],
    pub answer: Answer,
}

impl Served {
    // Refused: the table is as it was.
    pub fn refused(table: [Session; PARTIES], refusal: Refusal) -> Served
        ensures { result ≡ record { table = table; answer = refused_for refusal } }
    {
        Served {
            table,
            answer: Answer::from(refusal),
        }
    }
}

// What a run of calls leaves of the table, the answer of the last one, and how many steps were made.
#[derive(Clone, Copy)]
pub struct Ran {
    pub table: [Session; PARTIES],
    pub answer: Answer,
    pub steps: u32,
}

impl Ran {
    // Refused after so many steps: the table is as it was.
    pub fn refused(table: [Session; PARTIES], refusal: Refusal, steps: u32) -> Ran
        ensures { result ≡ record { table = table; answer = refused_for refusal; steps = steps } }
    {
        Ran {
            table,
            answer: Answer::from(refusal),
            steps,
        }
    }
}

// An answer, and how many steps were made for it.
#[derive(Clone, Copy, PartialEq, Eq, Debug)]
pub struct Made {
    pub answer: Answer,
    pub steps: u32,
}

// What a day call answers, with the place that the next call is to be handed; a refusal has none. Its number is a u32 as in Answer.
#[derive(Clone, Copy, PartialEq, Eq, Debug)]
pub enum DayAnswer {
    Ok(u32),
    More(u32),
    // The party that is named, and the place.
    Wait(u32, u32),
    // How many stretches the day has, and the place.
    Done(u32, u32),
    // The refusal's number, and the number beside it.
    Refused(u32, u32),
}

impl From<Refusal> for DayAnswer {
    ghost from_gives = { λ refusal answer. answer ≡ day_refused_for refusal };

    fn from(refusal: Refusal) -> DayAnswer {
        DayAnswer::Refused(refusal as u32, 0)
    }
}

// What a day call leaves of the table, and its answer.
#[derive(Clone, Copy)]
pub struct DayServed {
    pub table: [Session; PARTIES],
    pub answer: DayAnswer,
}

impl DayServed {
    // Refused: the table is as it was.
    pub fn refused(table: [Session; PARTIES], refusal: Refusal) -> DayServed
        ensures { result ≡ record { table = table; answer = day_refused_for refusal } }
    {
        DayServed {
            table,
            answer: DayAnswer::from(refusal),
        }
    }
}
