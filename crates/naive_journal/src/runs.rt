// Runs: the committed runs in order of commit, each done whole, and whether its records say the same.
use crate::chains::chain;
use crate::held::{Held, Member};
use crate::records::{Code, Journal, RECORDS, Record};

// Are the pairs of a list memberships with keys from first to second, and does each come behind the one before it?
fn are_found(journal: Journal<'_>, held: &Held, list: &[u32], first: u32, second: u32) -> bool {
    let mut last = None;
    for number in list {
        let pair = journal.record(*number).pair();
        let is_behind = match last {
            Some(last) => last < pair,
            None => true,
        };
        if !is_behind || pair.key < first || second < pair.key || !held.has(pair) {
            return false;
        }
        last = Some(pair);
    }
    true
}

// Has the list of a locate all memberships in its range, rising, and is its answer their number?
fn is_located(journal: Journal<'_>, held: &Held, record: Record<'_>) -> bool {
    let first = record.first();
    let second = record.second();
    let count = held.count_between(first, second);
    let mut room = [0; RECORDS];
    match chain(journal, record.list(), &mut room) {
        Some(list) => {
            list.len() == count
                && record.answer() as usize == count
                && are_found(journal, held, list, first, second)
        }
        None => false,
    }
}

// Does the request of a record. Says whether what comes of it stands in the record.
fn is_repeated(journal: Journal<'_>, held: &mut Held, record: Record<'_>) -> bool {
    let entry = record.entry();
    let member = Member {
        key: record.first(),
        entry,
    };
    let answer = match record.code() {
        Some(Code::Read) => held.value(entry),
        Some(Code::Write) => {
            held.write(entry, record.first());
            0
        }
        Some(Code::Insert) => u32::from(held.insert(member)),
        Some(Code::Remove) => u32::from(held.remove(member)),
        Some(Code::Locate) => return is_located(journal, held, record),
        Some(Code::Commit) | None => return true,
    };
    record.answer() == answer
}

// Does the requests of a run, in their order on the main chain. Says whether all is as its records say.
fn is_run_repeated(journal: Journal<'_>, held: &mut Held, main: &[u32], run: u32) -> bool {
    for number in main {
        let record = journal.record(*number);
        if record.run() == run && !is_repeated(journal, held, record) {
            return false;
        }
    }
    true
}

// Do the committed runs, done one behind another from an empty store, give what their records say?
pub fn are_repeated(journal: Journal<'_>, main: &[u32]) -> bool {
    let mut held = Held::new();
    for number in main {
        let record = journal.record(*number);
        if record.code() == Some(Code::Commit)
            && !is_run_repeated(journal, &mut held, main, record.run())
        {
            return false;
        }
    }
    true
}
