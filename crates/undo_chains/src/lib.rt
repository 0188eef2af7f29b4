// Undo chains: a session's chain of undo records (document 01's take-backs) is in order, and is filed by group.
//
// Whether "taken out: the entry is not there" holds cannot be decided along a session's chain: absence has no record. So each record that
// changes a group is put at the end of that group's list, which keeps the order newest first, and the crate lists undoes a group's
// list once its members are known. Here each record is met once, and its session holds what undoing it needs: the entry's
// exclusive lock and, for a membership, the update lock of the group of a proper key. Each function's result, and what it leaves, EQUAL
// a definition of specs/UndoChains. It rests on the crates words, groups, undos, locks and marks.
#![tactic(auto)]

ghost use Rattle.std.specs.Prelude.{◌≡◌, ◌≤◌, ◌<◌, length};
ghost use Rattle.words.specs.Store.{HasRecord};
ghost use Rattle.marks.specs.Trail.{Ends};
ghost use Rattle.undo_chains.specs.UndoChains.{Filing, group_held, kind_ok, undo_ok, file_at, file_undo, undos_from};

use marks::{Mark, Records};
use words::Field;

// The lists by group: place d has the last record of the list of descriptor d, FIRSTS + d the first, LINKS + i the one after record i. They
// are one slice, so that a single place is lent in their stead where no session has an undo record.
pub const FIRSTS: usize = 4097;

pub const LINKS: usize = 8194;

// Record d is the descriptor of a proper key, and session p has its update lock.
fn group_held(records: Records, seen: &[u8], p: u32, d: usize) -> bool
    requires { (records.r < length seen.now) × (1 ≤ p) × (p ≤ 32) }
    ensures { result ≡ group_held records.entry.store.now seen.now records.entry.m records.entry.r p d }
{
    let Records { store, m, r } = records;
    if !Mark::Descriptor.is_met(seen, r, d) {
        return false;
    }
    if groups::descriptor_key(store, m, d) == 0 {
        return false;
    }
    let update = groups::descriptor_update(store, m, d);
    locks::holds_session(update, p)
}

fn kind_ok(kind: u32) -> bool
    ensures { result ≡ kind_ok kind }
{
    if kind == 0 {
        return false;
    }
    kind <= undos::TAKEN
}

// What session p's undo record i needs.
fn undo_ok(records: Records, seen: &[u8], p: u32, i: usize) -> bool
    requires { (records.r < length seen.now) × (1 ≤ p) × (p ≤ 32) × (1 ≤ i) × (i ≤ records.r) }
    ensures { result ≡ undo_ok records.entry.store.now seen.now records.entry.m records.entry.r p i }
{
    let Records { store, m, .. } = records;
    let entry = undos::undo_entry(store, m, i);
    if !marks::entry_ok(entry, m) {
        return false;
    }
    let kind = undos::undo_kind(store, m, i);
    if !kind_ok(kind) {
        return false;
    }
    let e = entry as usize;
    let exclusive = words::entry_word(store, e, Field::Exclusive);
    if !locks::holds_session(exclusive, p) {
        return false;
    }
    if kind == undos::VALUE {
        return true;
    }
    let d = undos::undo_descriptor(store, m, i) as usize;
    group_held(records, seen, p, d)
}

// Record i at the end of the list of descriptor d.
fn append(files: &mut [u16], d: usize, i: usize)
    requires { Filing files.old × (d ≤ 4096) × (i ≤ 4096) }
    ensures { files.new ≡ file_at files.old d i }
{
    let last = files[d] as usize;
    let n = i as u16;
    files[d] = n;
    if last == 0 {
        let head = FIRSTS + d;
        files[head] = n;
        return;
    }
    if 4096 < last {
        return;
    }
    let link = LINKS + last;
    files[link] = n;
}

// Files undo record i under its group, if it has one.
fn file_undo(store: &[u32], files: &mut [u16], m: usize, i: usize)
    requires { HasRecord store.now m i × Filing files.old }
    ensures { files.new ≡ file_undo store.now files.old m i }
{
    if undos::undo_kind(store, m, i) == undos::VALUE {
        return;
    }
    let d = undos::undo_descriptor(store, m, i) as usize;
    if 4096 < d {
        return;
    }
    append(files, d, i);
}

// Session p's chain, from record first on: how many records may still be met, as Err where the chain is not in order.
pub fn walk_undos(
    records: Records,
    seen: &mut [u8],
    files: &mut [u16],
    p: u32,
    first: usize,
    left: usize,
) -> Result<usize, usize>
    requires { (records.r < length seen.old) × (1 ≤ p) × (p ≤ 32) × Filing files.old }
    ensures { Ends _ (undos_from records.entry.store.now records.entry.m records.entry.r p seen.old files.old first left) result seen.new files.new }
{
    let Records { store, m, r } = records;
    let mut i = first;
    let mut more = left;
    while i != 0 {
        more = Mark::Undo.meet(seen, r, i, more)?;
        if !undo_ok(records, seen, p, i) {
            return Err(more);
        }
        file_undo(store, files, m, i);
        i = undos::undo_next(store, m, i) as usize;
    }
    Ok(more)
}
