// Seats: what a call over a lent table keeps of the call by value, the record of its party with the answer, of a run how many steps were made, and of a day
// call its own answer; and the answer where no such call is made.
//
// It promises the record as the table has it, an idle one for a number that is no party's. It rests on sessions for the record, on outcomes for
// answers, on refusals for a party's record.
#![tactic(auto)]

ghost use Rattle.std.specs.Prelude.{◌≡◌};
ghost use Rattle.sessions.specs.Sessions.{session_at};

use outcomes::{Answer, DayAnswer, Made, Refusal};
use sessions::{PARTIES, Session};

// What a call leaves: its party, the party's record, and the answer; of a run with how many steps were made, of a day call with the next place.
#[derive(Clone, Copy)]
pub struct Seat<A> {
    pub party: u32,
    pub session: Session,
    pub answer: A,
}

// The record of party p out of the table that a call gave back, with the call's answer.
pub fn seat_of<A>(table: [Session; PARTIES], p: u32, answer: A) -> Seat<A>
    ensures { result ≡ record { party = p; session = session_at table p; answer = answer } }
{
    Seat {
        party: p,
        session: refusals::seat(table, p),
        answer,
    }
}

// The answer to a table that is not of 17 records.
pub fn wrong_table() -> Answer
    ensures { result ≡ Answer.Refused 1 0 }
{
    Answer::from(Refusal::Table)
}

// The same where steps are told with it: none.
pub fn wrong_table_made() -> Made
    ensures { result ≡ record { answer = Answer.Refused 1 0; steps = 0 } }
{
    Made {
        answer: wrong_table(),
        steps: 0,
    }
}

// The same of a day call.
pub fn wrong_table_day() -> DayAnswer
    ensures { result ≡ DayAnswer.Refused 1 0 }
{
    DayAnswer::from(Refusal::Table)
}
