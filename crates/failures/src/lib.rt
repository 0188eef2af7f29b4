// Failures: what a program says on standard error where the system fails it.
//
// A failure is told with the system's reason, without its number and without the heap. What is promised is that it is told safely and the telling ends. It
// rests on nothing of the repository.
#![tactic(auto)]

use arrayvec::ArrayString;
use std::fmt::Write;
use std::{fmt, io};

#[derive(Debug, Drop)]
pub enum Failure {
    // Standard input cannot be read.
    Input(io::Error),
    // Standard output cannot be written.
    Output(io::Error),
}

// The reason of an error as it is told.
#[derive(Clone, Copy)]
pub struct Reason<'a>(pub &'a io::Error);

// The text of an error without the system's number, with which it ends.
fn without_number(text: &str) -> &str {
    match text.split_once(" (os error ") {
        Some((reason, _)) => reason,
        None => text,
    }
}

impl fmt::Display for Reason<'_> {
    fn fmt<W: fmt::Write>(&self, f: &mut fmt::Formatter<W>) -> fmt::Result {
        let mut text = ArrayString::<512>::new();
        write!(text, "{}", self.0)?;
        f.write_str(without_number(text.as_str()))
    }
}

impl fmt::Display for Failure {
    fn fmt<W: fmt::Write>(&self, f: &mut fmt::Formatter<W>) -> fmt::Result {
        match self {
            Failure::Input(error) => write!(f, "standard input cannot be read: {}", Reason(error)),
            Failure::Output(error) => {
                write!(f, "standard output cannot be written: {}", Reason(error))
            }
        }
    }
}
