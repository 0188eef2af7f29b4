// Rules: which codes and numbers document 01 has, and that a run has nothing behind its commit.
use crate::records::{Code, Journal, Record};

fn is_entry(entry: u32) -> bool {
    1 <= entry && entry <= 1024
}

fn is_key(key: u32) -> bool {
    key != 0 && key != u32::MAX
}

// Are the code and the numbers of a record as document 01 has them?
fn is_allowed(record: Record<'_>) -> bool {
    let first = record.first();
    let second = record.second();
    match record.code() {
        Some(Code::Read | Code::Write) => is_entry(record.entry()),
        Some(Code::Insert | Code::Remove) => is_entry(record.entry()) && is_key(first),
        Some(Code::Locate) => is_key(first) && is_key(second) && first <= second,
        Some(Code::Commit) => true,
        None => false,
    }
}

// Does a record keep to document 01, and if it is a commit, is none of the later ones of its run?
fn is_kept(journal: Journal<'_>, record: Record<'_>, later: &[u32]) -> bool {
    let run = record.run();
    is_allowed(record)
        && (record.code() != Some(Code::Commit)
            || later
                .iter()
                .all(|other| journal.record(*other).run() != run))
}

// Does every record of the main chain keep to document 01, and is every commit the last of its run?
pub fn are_kept(journal: Journal<'_>, main: &[u32]) -> bool {
    let mut rest = main;
    while let [number, later @ ..] = rest {
        if !is_kept(journal, journal.record(*number), later) {
            return false;
        }
        rest = later;
    }
    true
}
