// Compare journals: the checker of journals (crate journal) beside a second one that goes another way (crate naive_journal).
//
// Crate made_journals makes journals that are to be accepted. Both checkers judge each of them, and then each with every change that crate changed_journals
// has, most of them one thing at a time: what is changed is near to what is right. The verdicts are counted for each change, and must agree. Random and
// fixed: each run is the same.
#![tactic(auto)]

mod report;

use changed_journals::Change;
use made_journals::book::{Book, raise};
use made_journals::records::Journal;
use report::Report;
use std::io;

const JOURNALS: u32 = 12000;

// How often each change is made to a journal. To one of 2,048 records it is made once.
const TIMES: u32 = 2;

// What both say of a journal.
fn judge(report: &mut Report, b: &Book, j: &Journal, change: Change) {
    let bytes = j.part(b.length);
    let first = journal::verdict(bytes);
    let second = naive_journal::verdict(bytes);
    report.note(b.number, change, first, second);
}

// Judges the journal with a change. Its length is again what it was.
fn judge_changed(
    report: &mut Report,
    b: &mut Book,
    j: &Journal,
    other: &mut Journal,
    change: Change,
) {
    let length = b.length;
    other.copy_from(j, length);
    change.make(b, other);
    judge(report, b, other, change);
    b.length = length;
}

// Judges the journal with each change, each time as it was made.
fn judge_all(report: &mut Report, b: &mut Book, j: &Journal, other: &mut Journal) {
    let times = if b.is_full() { 1 } else { TIMES };
    for change in Change::ALL.iter().skip(1) {
        for _ in 0..times {
            judge_changed(report, b, j, other, *change);
        }
    }
}

fn round(report: &mut Report, b: &mut Book, j: &mut Journal, other: &mut Journal) {
    b.choose();
    b.make(j);
    if b.records == 2048 {
        raise(&mut report.full);
    }
    judge(report, b, j, Change::None);
    judge_all(report, b, j, other);
    raise(&mut b.number);
}

fn main(rt: HostRuntime) -> io::Result<()> {
    let mut report = Report::new();
    let mut book = Book::new();
    let mut journal = Journal::new();
    let mut other = Journal::new();
    for _ in 0..JOURNALS {
        round(&mut report, &mut book, &mut journal, &mut other);
    }
    report.tell(&rt, &book)
}
