// Changed journals: the ways in which a made journal is changed, for the comparison of two checkers.
//
// It promises that every function is safe and ends. line_changes and list_changes have the changes, picks says where and to what, edits has what they are
// made of.
#![tactic(auto)]

mod edits;
mod line_changes;
mod list_changes;
mod picks;

use made_journals::book::Book;
use made_journals::records::Journal;
use std::fmt;

#[derive(Clone, Copy, PartialEq, Eq, Debug)]
pub enum Change {
    None,
    AnyWord,
    WordByOne,
    Byte,
    Length,
    Answer,
    Code,
    Number,
    Run,
    Commits,
    Places,
    MainNext,
    Shorter,
    ShorterAnswer,
    Gap,
    Longer,
    LongerAnswer,
    LongerAtEnd,
    LongerAtEndAnswer,
    Pair,
    Unsorted,
    Doubled,
    OtherList,
    OtherNext,
    // Two of the others, one after the other.
    Two,
}

pub const CHANGES: usize = 25;

impl Change {
    // No change, all that are one, and two of them.
    pub const ALL: [Change; CHANGES] = [
        Change::None,
        Change::AnyWord,
        Change::WordByOne,
        Change::Byte,
        Change::Length,
        Change::Answer,
        Change::Code,
        Change::Number,
        Change::Run,
        Change::Commits,
        Change::Places,
        Change::MainNext,
        Change::Shorter,
        Change::ShorterAnswer,
        Change::Gap,
        Change::Longer,
        Change::LongerAnswer,
        Change::LongerAtEnd,
        Change::LongerAtEndAnswer,
        Change::Pair,
        Change::Unsorted,
        Change::Doubled,
        Change::OtherList,
        Change::OtherNext,
        Change::Two,
    ];

    // None, or a change that is one.
    fn some(b: &mut Book) -> Change {
        let i = b.random.below(Change::Two as u32);
        Change::ALL.get(i as usize).copied().unwrap_or(Change::None)
    }

    fn make_one(self, b: &mut Book, j: &mut Journal) {
        match self {
            Change::None | Change::Two => {}
            Change::AnyWord => line_changes::any_word(b, j),
            Change::WordByOne => line_changes::word_by_one(b, j),
            Change::Byte => line_changes::byte(b, j),
            Change::Length => line_changes::length(b),
            Change::Answer => line_changes::answer(b, j),
            Change::Code => line_changes::code(b, j),
            Change::Number => line_changes::number(b, j),
            Change::Run => line_changes::run(b, j),
            Change::Commits => line_changes::commits(b, j),
            Change::Places => line_changes::places(b, j),
            Change::MainNext => line_changes::main_next(b, j),
            Change::Shorter => list_changes::shorter(b, j, 0),
            Change::ShorterAnswer => list_changes::shorter(b, j, 1),
            Change::Gap => list_changes::gap(b, j),
            Change::Longer => list_changes::longer(b, j, 0),
            Change::LongerAnswer => list_changes::longer(b, j, 1),
            Change::LongerAtEnd => list_changes::longer_at_end(b, j, 0),
            Change::LongerAtEndAnswer => list_changes::longer_at_end(b, j, 1),
            Change::Pair => list_changes::pair(b, j),
            Change::Unsorted => list_changes::unsorted(b, j),
            Change::Doubled => list_changes::doubled(b, j),
            Change::OtherList => list_changes::other_list(b, j),
            Change::OtherNext => list_changes::other_next(b, j),
        }
    }

    // Makes the change to a journal.
    pub fn make(self, b: &mut Book, j: &mut Journal) {
        if self != Change::Two {
            self.make_one(b, j);
            return;
        }
        let one = Change::some(b);
        let other = Change::some(b);
        one.make_one(b, j);
        other.make_one(b, j);
    }
}

impl fmt::Display for Change {
    fn fmt<W: fmt::Write>(&self, f: &mut fmt::Formatter<W>) -> fmt::Result {
        f.write_str(match self {
            Change::None => "as made",
            Change::AnyWord => "a word changed",
            Change::WordByOne => "a word one more or less",
            Change::Byte => "a byte changed",
            Change::Length => "the length changed",
            Change::Answer => "an answer changed",
            Change::Code => "a code changed",
            Change::Number => "a number changed",
            Change::Run => "a record given to another run",
            Change::Commits => "two commits exchanged",
            Change::Places => "two records of the main chain exchanged",
            Change::MainNext => "the main chain changed",
            Change::Shorter => "a list without its first pair",
            Change::ShorterAnswer => "a list without its first pair, the answer one less",
            Change::Gap => "a list without another pair",
            Change::Longer => "a list with a pair before it",
            Change::LongerAnswer => "a list with a pair before it, the answer one more",
            Change::LongerAtEnd => "a list with a pair behind it",
            Change::LongerAtEndAnswer => "a list with a pair behind it, the answer one more",
            Change::Pair => "a pair changed",
            Change::Unsorted => "two pairs exchanged",
            Change::Doubled => "a pair twice",
            Change::OtherList => "another list",
            Change::OtherNext => "a list that goes on elsewhere",
            Change::Two => "two of these",
        })
    }
}
