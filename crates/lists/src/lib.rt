// Lists: a group's members are in order, and the undo records of the group can be undone, newest first.
//
// A scratch list says for each entry which group listed it last and by which record: a group is walked once, so an entry is in the
// group at hand exactly where it names it. After the members, the group's undo records, as the crate undo_chains filed them, are undone on
// that list. An entry has one exclusive holder, so the order between the records of different sessions does not matter. Nothing is filed
// past the end of what was filed, so files may be as short as there is need. Each function's result, and what it leaves, EQUAL a definition
// of specs/Lists. It rests on the crates words, groups, undos, marks and undo_chains.
#![tactic(auto)]

ghost use Rattle.std.specs.Prelude.{◌≡◌, ◌≤◌, ◌<◌, length, get_or};
ghost use Rattle.words.specs.Store.{HasRecord};
ghost use Rattle.marks.specs.Trail.{Turned, Ends};
ghost use Rattle.lists.specs.Lists.{Listing, Listed, list_entry, unlist_entry, member_one, members_from, undo_one, undo_from, group_lists};

use marks::{Mark, Records};

// The scratch list: place e has the group that listed entry e last, and place BY + e the record by which. It is one slice, as specs/Lists has it,
// of whose places the theorems of soundness/GroupsPass speak.
const BY: usize = 1025;

// Entry e comes into group d by record i, if it is not in it.
fn list_entry(lists: &mut [u16], d: usize, e: usize, i: usize) -> bool
    requires { Listing lists.old × (d ≤ 4096) × (e ≤ 1024) × (i ≤ 4096) }
    ensures { Turned (list_entry lists.old d e i) result lists.new }
{
    let group = lists[e] as usize;
    if group == d {
        return false;
    }
    lists[e] = d as u16;
    let at = BY + e;
    lists[at] = i as u16;
    true
}

// Entry e goes out of group d, if it is in it by record i.
fn unlist_entry(lists: &mut [u16], d: usize, e: usize, i: usize) -> bool
    requires { Listing lists.old × (e ≤ 1024) }
    ensures { Turned (unlist_entry lists.old d e i) result lists.new }
{
    let group = lists[e] as usize;
    if group != d {
        return false;
    }
    let at = BY + e;
    let place = lists[at] as usize;
    if place != i {
        return false;
    }
    lists[e] = 0;
    true
}

// Membership i of group d: it names the member before it, and an entry that is not in the group yet.
fn member_one(store: &[u32], lists: &mut [u16], m: usize, d: usize, i: usize, before: usize) -> bool
    requires { HasRecord store.now m i × Listing lists.old × (d ≤ 4096) }
    ensures { Turned (member_one store.now lists.old m d i before) result lists.new }
{
    let named = groups::membership_before(store, m, i) as usize;
    if named != before {
        return false;
    }
    let entry = groups::membership_entry(store, m, i);
    if !marks::entry_ok(entry, m) {
        return false;
    }
    let e = entry as usize;
    list_entry(lists, d, e, i)
}

// The members of group d, from record first on: how many records may still be met, as Err where they are not in order.
fn walk_members(
    records: Records,
    seen: &mut [u8],
    lists: &mut [u16],
    d: usize,
    first: usize,
    left: usize,
) -> Result<usize, usize>
    requires { (records.r < length seen.old) × Listing lists.old × (d ≤ 4096) }
    ensures { Listed (members_from records.entry.store.now records.entry.m records.entry.r d seen.old lists.old first left) result seen.new lists.new }
{
    let Records { store, m, r } = records;
    let mut i = first;
    let mut before = 0;
    let mut more = left;
    while i != 0 {
        more = Mark::Membership.meet(seen, r, i, more)?;
        if !member_one(store, lists, m, d, i, before) {
            return Err(more);
        }
        before = i;
        i = groups::membership_next(store, m, i) as usize;
    }
    Ok(more)
}

// Undo record i of group d: an entry that was added goes out, by the record that it names; one that was taken out comes back, by this
// record.
fn undo_one(store: &[u32], lists: &mut [u16], m: usize, d: usize, i: usize) -> bool
    requires { HasRecord store.now m i × Listing lists.old × (d ≤ 4096) }
    ensures { Turned (undo_one store.now lists.old m d i) result lists.new }
{
    let entry = undos::undo_entry(store, m, i);
    if !marks::entry_ok(entry, m) {
        return false;
    }
    let e = entry as usize;
    if undos::undo_kind(store, m, i) == undos::ADDED {
        let place = undos::undo_saved(store, m, i) as usize;
        return unlist_entry(lists, d, e, place);
    }
    list_entry(lists, d, e, i)
}

// What is filed at a place; 0 past the end, and no Option: the lent slice may be shorter than what is asked of it, and the definition has the
// same 0, by which a store names no record.
fn filed(files: &[u16], at: usize) -> usize
    ensures { result ≡ get_or files.now at 0 }
{
    if files.len() <= at {
        return 0;
    }
    files[at] as usize
}

// The undo records of group d as they are filed, from record first on.
fn undo_group(records: Records, files: &[u16], lists: &mut [u16], d: usize, first: usize) -> bool
    requires { Listing lists.old × (d ≤ 4096) }
    ensures { Turned (undo_from records.entry.store.now files.now records.entry.m records.entry.r d lists.old first records.entry.r) result lists.new }
{
    let Records { store, m, r } = records;
    let mut i = first;
    let mut more = r;
    while i != 0 {
        if more == 0 {
            return false;
        }
        if r < i {
            return false;
        }
        if !undo_one(store, lists, m, d, i) {
            return false;
        }
        let link = undo_chains::LINKS + i;
        i = filed(files, link);
        more -= 1;
    }
    true
}

// Group d: its members, and then its undo records: how many records may still be met, as Err where they are not in order.
pub fn walk_lists(
    records: Records,
    seen: &mut [u8],
    files: &[u16],
    lists: &mut [u16],
    d: usize,
    left: usize,
) -> Result<usize, usize>
    requires { (records.r < length seen.old) × Listing lists.old × (1 ≤ d) × (d ≤ records.r) }
    ensures { Ends _ (group_lists records.entry.store.now files.now records.entry.m records.entry.r seen.old lists.old d left) result seen.new lists.new }
{
    let Records { store, m, .. } = records;
    let first = groups::descriptor_first(store, m, d) as usize;
    let more = walk_members(records, seen, lists, d, first, left)?;
    let head = undo_chains::FIRSTS + d;
    let undo = filed(files, head);
    if !undo_group(records, files, lists, d, undo) {
        return Err(more);
    }
    Ok(more)
}
