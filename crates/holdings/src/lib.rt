// Holdings: only begun sessions hold, no two holders conflict, pins are as many as the requests have, and each locate holds every key that it
// has passed.
//
// The groups are walked in the order of their keys: each descriptor's own words, and with the crate lists its members and undo records. The
// crate holders has the test of holders words, the crate passing whose locates must hold a key and its gap. Each function's result, and what
// it leaves, EQUAL a definition of specs/Holdings, which looks at each key by itself. It rests on the crates kinds, groups, sessions, marks,
// lists, holders and passing.
#![tactic(auto)]

ghost use Rattle.std.specs.Prelude.{◌≡◌, ◌≤◌, ◌<◌, length};
ghost use Rattle.marks.specs.Trail.{Ends};
ghost use Rattle.lists.specs.Lists.{Listing};
ghost use Rattle.holdings.specs.Holdings.{group_ok, descriptor_ok, key_of, key_at, group_one, all_groups};

use groups::Descriptor;
use kinds::Record;
use marks::Records;
use passing::Asked;
use sessions::{PARTIES, Session};

// A descriptor's words: its holders are begun and agree, its pins (document 01's seize count) are as counted, and each locate that has passed
// its key or the gap behind it holds it.
fn group_ok(d: Descriptor, begun: u32, asked: Asked, pinned: u8) -> bool
    ensures { result ≡ group_ok d begun asked pinned }
{
    let locate = d.locate;
    let update = d.update;
    let gap = d.gap;
    if !holders::holders_ok(1, locate, update, begun) {
        return false;
    }
    if !holders::within(gap, begun) {
        return false;
    }
    let pins = pinned as u32;
    if d.pins != pins {
        return false;
    }
    if !holders::within(asked.locate, locate) {
        return false;
    }
    holders::within(asked.gap, gap)
}

// Descriptor d's key; 0 where it is none of the store's, as `Holdings.key_of` has it: then the group's own test refuses it.
fn key_of(records: Records, d: usize) -> u32
    ensures { result ≡ key_of records.entry.store.now records.entry.m records.entry.r d }
{
    let Records { store, m, r } = records;
    if d == 0 {
        return 0;
    }
    if r < d {
        return 0;
    }
    groups::descriptor_key(store, m, d)
}

// The key at place k of the order; 0, which is the key of no group and stands for none in the definition too, where there is none.
fn key_at(records: Records, order: &[u16], count: usize, k: usize) -> u32
    requires { count ≤ length order.now }
    ensures { result ≡ key_at records.entry.store.now order.now records.entry.m records.entry.r count k }
{
    if count <= k {
        return 0;
    }
    let d = order[k] as usize;
    key_of(records, d)
}

// Descriptor d is one of the store's, and its words are right.
fn descriptor_ok(records: Records, tally: &[u8], begun: u32, asked: Asked, d: usize) -> bool
    requires { records.r < length tally.now }
    ensures { result ≡ descriptor_ok records.entry.store.now tally.now records.entry.m records.entry.r begun asked d }
{
    let Records { store, m, r } = records;
    if d == 0 {
        return false;
    }
    if r < d {
        return false;
    }
    let words = Descriptor::load(store, m, d);
    let pinned = tally[d];
    group_ok(words, begun, asked, pinned)
}

// Group d: its own words, its members, its undo records. How many records may still be met, as Err where the group is not in order.
fn group_one(
    records: Records,
    seen: &mut [u8],
    tally: &[u8],
    files: &[u16],
    lists: &mut [u16],
    begun: u32,
    asked: Asked,
    d: usize,
    left: usize,
) -> Result<usize, usize>
    requires { (records.r < length seen.old) × (records.r < length tally.now) × Listing lists.old }
    ensures { Ends _ (group_one records.entry.store.now tally.now files.now records.entry.m records.entry.r begun asked seen.old lists.old d left) result seen.new lists.new }
{
    if !descriptor_ok(records, tally, begun, asked, d) {
        return Err(left);
    }
    lists::walk_lists(records, seen, files, lists, d, left)
}

// All groups, in the order of their keys: how many records may still be met, as Err where a group is not in order.
pub fn walk_groups(
    records: Records,
    seen: &mut [u8],
    order: &[u16],
    tally: &[u8],
    files: &[u16],
    lists: &mut [u16],
    begun: u32,
    t: [Session; PARTIES],
    count: usize,
    left: usize,
) -> Result<usize, usize>
    requires { (records.r < length seen.old) × (records.r < length tally.now) × Listing lists.old × (count ≤ length order.now) }
    ensures { Ends _ (all_groups records.entry.store.now order.now tally.now files.now records.entry.m records.entry.r begun t count seen.old lists.old left) result seen.new lists.new }
{
    let mut so = passing::passed_at(t, 0);
    let mut more = left;
    for k in 0..count {
        let d = order[k] as usize;
        let key = key_of(records, d);
        let next = key_at(records, order, count, k + 1);
        so = passing::passed_next(t, key, so);
        let ask = passing::asked_at(t, key, next, so);
        more = group_one(records, seen, tally, files, lists, begun, ask, d, more)?;
    }
    Ok(more)
}
