// Parties: the whole session table. Every party stands right, as many are at a node as are counted, and every session's chain of undo
// records, if any has one, is in order.
//
// These are the loops over the table's records. Each function's result, and what it leaves, EQUAL a definition of specs/Parties. It
// rests on the crates sessions, marks, undo_chains and standing.
#![tactic(auto)]

ghost use Rattle.std.specs.Prelude.{◌≡◌, ◌<◌, length};
ghost use Rattle.marks.specs.Trail.{Turned, Ends};
ghost use Rattle.undo_chains.specs.UndoChains.{Filing};
ghost use Rattle.parties.specs.Parties.{parties_ok, mark_ok, marks_ok, one_at_node, standing_at_nodes, has_undos, all_undos};

use marks::Records;
use sessions::{PARTIES, Session, Stage};

// All parties stand right; their pins are counted.
pub fn parties_ok(records: Records, seen: &[u8], tally: &mut [u8], t: [Session; PARTIES]) -> bool
    requires { (records.r < length seen.now) × (records.r < length tally.old) }
    ensures { Turned (parties_ok records.entry.store.now seen.now records.entry.m records.entry.r t tally.old) result tally.new }
{
    for p in 0..PARTIES {
        let s = t[p];
        if !standing::party_ok(records, seen, tally, p, s) {
            return false;
        }
    }
    true
}

// Party p is asked only if it is a begun session with no request in hand.
fn mark_ok(p: usize, s: Session) -> bool
    ensures { result ≡ mark_ok p s }
{
    if s.asked == 0 {
        return true;
    }
    if p == 0 {
        return false;
    }
    if s.begun == 0 {
        return false;
    }
    s.stage == Stage::Idle as u32
}

// So for all parties.
pub fn marks_ok(t: [Session; PARTIES]) -> bool
    ensures { result ≡ marks_ok t }
{
    for p in 0..PARTIES {
        let s = t[p];
        if !mark_ok(p, s) {
            return false;
        }
    }
    true
}

// One for a party at a node.
fn one_at_node(s: Session) -> usize
    ensures { result ≡ one_at_node s }
{
    if s.stage == Stage::AtNode as u32 {
        return 1;
    }
    0
}

// How many parties are at a node.
pub fn standing_at_nodes(t: [Session; PARTIES]) -> usize
    ensures { result ≡ standing_at_nodes t }
{
    let mut n = 0;
    for p in 0..PARTIES {
        let s = t[p];
        n += one_at_node(s);
    }
    n
}

// Some session has an undo record.
pub fn has_undos(t: [Session; PARTIES]) -> bool
    ensures { result ≡ has_undos t }
{
    for s in &t[1..] {
        if s.undo != 0 {
            return true;
        }
    }
    false
}

// All sessions' chains of undo records: how many records may still be met, as Err where a chain is not in order.
pub fn all_undos(
    records: Records,
    seen: &mut [u8],
    files: &mut [u16],
    t: [Session; PARTIES],
    left: usize,
) -> Result<usize, usize>
    requires { (records.r < length seen.old) × Filing files.old }
    ensures { Ends _ (all_undos records.entry.store.now records.entry.m records.entry.r t seen.old files.old left) result seen.new files.new }
{
    let mut more = left;
    for p in 1..PARTIES {
        let s = t[p];
        let first = s.undo as usize;
        let session = p as u32;
        more = undo_chains::walk_undos(records, seen, files, session, first, more)?;
    }
    Ok(more)
}
