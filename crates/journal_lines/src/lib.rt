// What a journal says: its lines, and the first two tests on it.
//
// specs/Journal has the definitions of the whole verdict: chains, lines, codes and numbers, committed runs, answers. The code here answers whether the file
// can be read (15) and whether its codes and numbers are document 01's and no run goes on after its commit (16). specs/Walks says what stands at each place
// of a chain that ends, specs/Loops and specs/Ways what the loops and tests keep.
#![tactic(auto)]

ghost use Rattle.std.specs.Prelude.{◌≡◌, true, not, ◌&&◌, []};
ghost use Rattle.journal_lines.specs.Journal.{chain_from, line_of, list_of, whole, lines_after, lines, said, is_some, proper_entry, proper_key, proper, all_proper, none_of, all_end};
ghost use Rattle.journal_lines.specs.Loops.{lines_from, ahead, in_order};

use journal_reader::{Kind, Record};

// ---- 15: the length and the chains

// Whether the bytes are 1 to 2,048 whole records.
#[tactic(auto, unfolding(crate::specs::Journal::whole))]
fn is_whole(bytes: &[u8]) -> bool
    ensures { result ≡ whole bytes.now }
{
    bytes.len() % 32 == 0 && (1..=2048).contains(&(bytes.len() / 32))
}

// Whether the chain from an index ends inside the file: one with more records than the file meets one of its own twice.
fn is_chain(bytes: &[u8], start: usize) -> bool
    ensures { result ≡ is_some (chain_from bytes.now start) }
{
    let records = bytes.len() / 32;
    let mut at = start;
    for passed in 0..records {
        if at == 0 {
            return true;
        }
        if records < at {
            return false;
        }
        at = journal_reader::follow(bytes, at);
    }
    at == 0
}

// Whether the list that a record of the main chain names ends inside the file. Only a locate names one.
#[tactic(auto, unfolding(crate::specs::Journal::list_of))]
fn is_list(bytes: &[u8], r: Record) -> bool
    ensures { result ≡ is_some (list_of bytes.now r) }
{
    r.kind() != Some(Kind::Locate) || is_chain(bytes, r.list as usize)
}

// Whether the main chain and the list of each of its records end inside the file.
fn are_lines(bytes: &[u8]) -> bool
    ensures { result ≡ is_some (lines_after bytes.now (chain_from bytes.now 1)) }
{
    let records = bytes.len() / 32;
    let mut at: usize = 1;
    for passed in 0..records {
        if at == 0 {
            return true;
        }
        if records < at {
            return false;
        }
        let r = journal_reader::read(bytes, at);
        if !is_list(bytes, r) {
            return false;
        }
        at = r.next as usize;
    }
    at == 0
}

// Whether the length is 1 to 2,048 whole records and every chain ends inside the file.
#[tactic(auto, unfolding(crate::specs::Journal::lines))]
pub fn is_readable(bytes: &[u8]) -> bool
    ensures { result ≡ is_some (lines bytes.now) }
{
    is_whole(bytes) && are_lines(bytes)
}

// ---- 16: codes, numbers and commits

fn is_entry(e: u32) -> bool
    ensures { result ≡ proper_entry e }
{
    (1..=1024).contains(&e)
}

fn is_key(k: u32) -> bool
    ensures { result ≡ proper_key k }
{
    (1..=4294967294).contains(&k)
}

// Whether the code is one of document 02's and the request's numbers are those that document 01 accepts.
#[tactic(auto, unfolding(crate::specs::Journal::proper))]
fn is_proper(r: Record) -> bool
    ensures { result ≡ proper (line_of r []) }
{
    match r.kind() {
        Some(Kind::Read | Kind::Write) => is_entry(r.entry),
        Some(Kind::Insert | Kind::Remove) => is_entry(r.entry) && is_key(r.first),
        Some(Kind::Locate) => is_key(r.first) && is_key(r.second) && r.first <= r.second,
        Some(Kind::Commit) => true,
        None => false,
    }
}

// Whether a line of the main chain from a place on is of this run.
fn goes_on(bytes: &[u8], start: usize, many: usize, run: u32) -> bool
    requires { is_some (lines_from bytes.now many start) ≡ true }
    ensures { result ≡ not (none_of run (ahead bytes.now many start)) }
{
    let mut at = start;
    for passed in 0..many {
        if at == 0 {
            return false;
        }
        let r = journal_reader::read(bytes, at);
        if r.run == run {
            return true;
        }
        at = r.next as usize;
    }
    false
}

// Whether a record is proper and, if it is a commit, no line after it is of its run.
#[tactic(auto, unfolding(crate::specs::Loops::in_order))]
fn is_in_order(bytes: &[u8], r: Record, left: usize) -> bool
    requires { is_some (lines_from bytes.now left r.next) ≡ true }
    ensures { result ≡ in_order r (ahead bytes.now left r.next) }
{
    is_proper(r)
        && (r.kind() != Some(Kind::Commit) || !goes_on(bytes, r.next as usize, left, r.run))
}

// Whether every code and number is document 01's and no run goes on after its commit.
pub fn is_orderly(bytes: &[u8]) -> bool
    requires { is_some (lines bytes.now) ≡ true }
    ensures { result ≡ (all_proper (said bytes.now) && all_end (said bytes.now)) }
{
    let records = bytes.len() / 32;
    let mut at: usize = 1;
    for passed in 0..records {
        if at == 0 {
            return true;
        }
        let r = journal_reader::read(bytes, at);
        if !is_in_order(bytes, r, records - passed - 1) {
            return false;
        }
        at = r.next as usize;
    }
    true
}
