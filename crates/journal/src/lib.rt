// The verdict on a journal: 15, 16, 17, or 0 for one that is accepted.
//
// Whether a journal can be read and is orderly is journal_lines' to say. The third test is made here: the committed runs are replayed in a Database, in
// order of commit, and every stored answer and list is held to the logical model's (specs/Fits). Each run is one walk of the main chain (specs/Loops). A run
// commits once, so the committed runs have no more requests than there are lines (specs/Room), and there is room for every membership.
#![tactic(auto)]

ghost use Rattle.std.specs.Prelude.{◌≡◌, true, length};
ghost use Rattle.serial.specs.Model.{empty};
ghost use Rattle.journal_lines.specs.Journal.{said, of_run, committed, feeds, verdict_of};
ghost use Rattle.journal.specs.Fits.{fits_all};
ghost use Rattle.journal.specs.Located.{line_at, lists_as, next_of, Listable};
ghost use Rattle.journal.specs.Runs.{ReplaysTo, Feedable};
ghost use Rattle.journal.specs.Loops.{fed_in, closed_by, Turnable, Replayable, Closable, Past16};
ghost use Rattle.journal.specs.Verdict.{refusal_number, number_of};

use journal_reader::{Kind, Record};
use replay::Database;

// ---- a locate's list

// The index behind the list's next record, if that has this key and this entry.
fn next_in_list(bytes: &[u8], at: usize, key: u32, entry: u32) -> Option<usize>
    ensures { result ≡ next_of bytes.now at key entry }
{
    if at == 0 {
        return None;
    }
    let r = journal_reader::read(bytes, at);
    ((r.run, r.code) == (key, entry)).then_some(r.next as usize)
}

// Whether a locate's list and answer are the model's: the memberships from first to second are the list's records, in order, and their number is the answer.
fn is_located(bytes: &[u8], r: Record, db: &Database) -> bool
    requires { Listable bytes.now r db.now.keys db.now.entries db.now.count }
    ensures { result ≡ lists_as bytes.now r db.now.keys db.now.entries db.now.count }
{
    let mut at = r.list as usize;
    let mut met: usize = 0;
    for i in 0..db.count {
        let key = db.keys[i];
        if (r.first..=r.second).contains(&key) {
            let Some(next) = next_in_list(bytes, at, key, db.entries[i]) else {
                return false;
            };
            at = next;
            met += 1;
        }
    }
    at == 0 && r.answer as usize == met
}

// ---- a run

// The request of a record, fed to the model: whether the answer is the record's. A commit has none.
fn feed_line(bytes: &[u8], r: Record, db: &mut Database) -> bool
    requires { Feedable bytes.now r db.old.values db.old.keys db.old.entries db.old.count }
    ensures { ReplaysTo (feeds (line_at bytes.now r)) db.old result db.new }
{
    match r.kind() {
        Some(Kind::Read) => r.answer == db.read(r.entry),
        Some(Kind::Write) => r.answer == db.write(r.entry, r.first),
        Some(Kind::Insert) => r.answer == db.insert(r.entry, r.first),
        Some(Kind::Remove) => r.answer == db.remove(r.entry, r.first),
        Some(Kind::Locate) => is_located(bytes, r, db),
        Some(Kind::Commit) => true,
        None => false,
    }
}

// A record of the main chain in the replay of a run.
fn turn(bytes: &[u8], run: u32, r: Record, db: &mut Database) -> bool
    requires { Turnable bytes.now run r db.old.values db.old.keys db.old.entries db.old.count }
    ensures { ReplaysTo (fed_in run (line_at bytes.now r)) db.old result db.new }
{
    r.run != run || feed_line(bytes, r, db)
}

// A run, replayed whole; it stops at the first answer that differs.
fn replay_run(bytes: &[u8], run: u32, db: &mut Database) -> bool
    requires { Replayable bytes.now run db.old.values db.old.keys db.old.entries db.old.count }
    ensures { ReplaysTo (of_run run (said bytes.now)) db.old result db.new }
{
    let records = bytes.len() / 32;
    let mut at: usize = 1;
    for passed in 0..records {
        if at == 0 {
            return true;
        }
        let r = journal_reader::read(bytes, at);
        if !turn(bytes, run, r, db) {
            return false;
        }
        at = r.next as usize;
    }
    true
}

// ---- the committed runs

// A record of the main chain: at a commit its run is replayed.
fn close_run(bytes: &[u8], r: Record, db: &mut Database) -> bool
    requires { Closable bytes.now r db.old.values db.old.keys db.old.entries db.old.count }
    ensures { ReplaysTo (closed_by (said bytes.now) (line_at bytes.now r)) db.old result db.new }
{
    r.kind() != Some(Kind::Commit) || replay_run(bytes, r.run, db)
}

// Whether the committed runs, replayed in order of commit from an empty store, give every stored answer and list.
fn is_replayed(bytes: &[u8]) -> bool
    requires { Past16 bytes.now }
    ensures { result ≡ fits_all (committed (said bytes.now)) empty }
{
    let mut db = Database::new();
    let records = bytes.len() / 32;
    let mut at: usize = 1;
    for passed in 0..records {
        if at == 0 {
            return true;
        }
        let r = journal_reader::read(bytes, at);
        if !close_run(bytes, r, &mut db) {
            return false;
        }
        at = r.next as usize;
    }
    true
}

// ---- the verdict

// Why a journal is refused.
#[derive(Clone, Copy, PartialEq, Eq, Debug)]
pub enum Refusal {
    // The length is wrong or a chain does not end inside the file.
    Unreadable,
    // A code or number is not document 01's or a run goes on after its commit.
    Disorderly,
    // An answer or list differs.
    Unanswered,
}

impl Refusal {
    // Its number in document 02.
    pub fn number(self) -> u32
        ensures { result ≡ refusal_number self }
    {
        match self {
            Refusal::Unreadable => 15,
            Refusal::Disorderly => 16,
            Refusal::Unanswered => 17,
        }
    }
}

// The three tests in order: the first that the journal fails refuses it.
pub fn check(bytes: &[u8]) -> Result<(), Refusal>
    ensures { number_of result ≡ verdict_of bytes.now }
{
    if !journal_lines::is_readable(bytes) {
        return Err(Refusal::Unreadable);
    }
    if !journal_lines::is_orderly(bytes) {
        return Err(Refusal::Disorderly);
    }
    if !is_replayed(bytes) {
        return Err(Refusal::Unanswered);
    }
    Ok(())
}

// The number of a refusal; 0 for a journal that is accepted.
pub fn verdict(bytes: &[u8]) -> u32
    ensures { result ≡ verdict_of bytes.now }
{
    match check(bytes) {
        Ok(()) => 0,
        Err(refusal) => refusal.number(),
    }
}
