// Text: what a line of a script tells, as a line of text.
use outcomes::Answer;
use std::fmt;

// What a line of a script tells: its number, and what came of it.
#[derive(Clone, Copy)]
pub struct Told<'a> {
    pub number: u64,
    pub outcome: Outcome<'a>,
}

#[derive(Clone, Copy)]
pub enum Outcome<'a> {
    // The line is no command.
    Malformed,
    Answered(Answer),
    // The answer of a locate, and the list that it was lent: two words a pair.
    Located(Answer, &'a [u32]),
}

// The first pairs of a list, so many, each with a blank before it.
#[derive(Drop)]
struct Pairs<'a> {
    list: &'a [u32],
    count: u32,
}

// The word of an answer and its numbers.
#[derive(Drop)]
struct Words(Answer);

impl fmt::Display for Pairs<'_> {
    fn fmt<W: fmt::Write>(&self, f: &mut fmt::Formatter<W>) -> fmt::Result {
        let mut rest = self.list;
        for _ in 0..self.count {
            let [key, entry, others @ ..] = rest else {
                break;
            };
            write!(f, " {key}:{entry}")?;
            rest = others;
        }
        Ok(())
    }
}

impl fmt::Display for Words {
    fn fmt<W: fmt::Write>(&self, f: &mut fmt::Formatter<W>) -> fmt::Result {
        match self.0 {
            Answer::Ok => write!(f, "ok"),
            Answer::More => write!(f, "more"),
            Answer::Wait(party) => write!(f, "wait {party}"),
            Answer::Done(value) => write!(f, "done {value}"),
            Answer::Tidied(key, is_gone) => write!(f, "done {key} {is_gone}"),
            Answer::Refused(refusal, beside) => write!(f, "refused {refusal} {beside}"),
        }
    }
}

impl fmt::Display for Outcome<'_> {
    fn fmt<W: fmt::Write>(&self, f: &mut fmt::Formatter<W>) -> fmt::Result {
        match *self {
            Outcome::Malformed => write!(f, "malformed"),
            Outcome::Answered(answer) => write!(f, "{}", Words(answer)),
            Outcome::Located(Answer::Done(count), list) => {
                write!(f, "{}{}", Words(Answer::Done(count)), Pairs { list, count })
            }
            Outcome::Located(answer, _) => write!(f, "{}", Words(answer)),
        }
    }
}

impl fmt::Display for Told<'_> {
    fn fmt<W: fmt::Write>(&self, f: &mut fmt::Formatter<W>) -> fmt::Result {
        let number = self.number;
        let outcome = self.outcome;
        write!(f, "{number} {outcome}")
    }
}
