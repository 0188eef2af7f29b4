// Scans: walks that only read, along the descriptors and along a group's members, and the pairs of a locate written to the lent list.
//
// It promises that each walk's result EQUALS a definition of specs/Scans, and that of the lent list exactly the words of the range are
// written: the keys as the chain has them, under each key the entries in rising order, and every later word as it was. specs/Rising says that
// this order does not depend on the order of the members. Nothing here writes the store. It rests on the crates words, kinds, groups and chain.
#![tactic(auto)]

ghost use Rattle.std.specs.Prelude.{◌≡◌, ◌++◌, ◌+◌, ◌*◌, ◌≤◌, ◌<◌, length, drop};
ghost use Rattle.chain.specs.Walk.{Walk};
ghost use Rattle.scans.specs.Scans.{last_upto, CanFollow, membership_of, entries_in, range_words, range_count, CanCount, CanWrite, Settled, insert_pair, GroupFits, GroupWritten};

// ---- descriptors and members

// From the descriptor at record i on, the last one whose key is at most k; the one at i counts without a look.
pub fn last_upto(store: &[u32], m: usize, r: usize, i: usize, k: u32) -> usize
    requires { CanFollow store.now m r i }
    ensures { result ≡ last_upto store.now m r i k }
{
    let mut at = i;
    for _turn in 0..r {
        let next = groups::descriptor_next(store, m, at) as usize;
        if next == 0 || k < groups::descriptor_key(store, m, next) {
            return at;
        }
        at = next;
    }
    at
}

// The membership of entry e, from record i on; 0 for none, as a link of the chain and membership_of have it.
pub fn find_member(store: &[u32], m: usize, r: usize, i: usize, e: u32) -> usize
    requires { Walk store.now m r i }
    ensures { result ≡ membership_of store.now m r i e }
{
    let mut at = i;
    for _turn in 0..r {
        if at == 0 || groups::membership_entry(store, m, at) == e {
            return at;
        }
        at = groups::membership_next(store, m, at) as usize;
    }
    0
}

// How many members there are, from record i on.
pub fn count_members(store: &[u32], m: usize, r: usize, i: usize) -> usize
    requires { Walk store.now m r i }
    ensures { result ≡ length (entries_in store.now m r i) }
{
    let mut at = i;
    for n in 0..r {
        if at == 0 {
            return n;
        }
        at = groups::membership_next(store, m, at) as usize;
    }
    r
}

// How many members the descriptors have, from record i on, whose keys are at most hi.
pub fn count_range(store: &[u32], m: usize, r: usize, i: usize, hi: u32) -> usize
    requires { CanCount store.now m r i }
    ensures { result ≡ range_count store.now m r r i hi }
{
    let mut at = i;
    let mut n = 0;
    for _turn in 0..r {
        if at == 0 || hi < groups::descriptor_key(store, m, at) {
            return n;
        }
        let first = groups::descriptor_first(store, m, at) as usize;
        n += count_members(store, m, r, first);
        at = groups::descriptor_next(store, m, at) as usize;
    }
    n
}

// ---- the pairs of a range

// The earlier of entry e and the one at a place of the list stays there; the other one is to go further on. The list is the slice that a host
// lends, two words for a pair, and the definition says which of its words change: so entries are put in where they lie, and no Vec is sorted.
fn settle(list: &mut [u32], at: usize, e: u32) -> u32
    requires { at < length list.old }
    ensures { Settled list.old at e result list.new }
{
    let x = list[at];
    if e <= x {
        list[at] = e;
        return x;
    }
    e
}

// Entry e comes among the first n pairs, all of one key, which then are one more.
fn insert_pair(list: &mut [u32], n: usize, key: u32, e: u32)
    requires { 2 * n + 2 ≤ length list.old }
    ensures { list.new ≡ insert_pair n key e list.old }
{
    let mut carry = e;
    for i in 0..n {
        carry = settle(list, 2 * i + 1, carry);
    }
    list[2 * n] = key;
    list[2 * n + 1] = carry;
}

// Writes the pairs of a group over the start of the list, the entries rising: how many pairs.
fn write_group(store: &[u32], list: &mut [u32], m: usize, r: usize, first: usize, key: u32) -> usize
    requires { GroupFits store.now m r first list.old }
    ensures { GroupWritten store.now m r first key list.old result list.new }
{
    let mut at = first;
    for n in 0..r {
        if at == 0 {
            return n;
        }
        let e = groups::membership_entry(store, m, at);
        insert_pair(list, n, key, e);
        at = groups::membership_next(store, m, at) as usize;
    }
    r
}

// Writes the pairs of the descriptors from record i on whose keys are at most hi over the start of the list.
pub fn write_pairs(store: &[u32], list: &mut [u32], m: usize, r: usize, i: usize, hi: u32)
    requires { CanWrite store.now m r i hi list.old }
    ensures { list.new ≡ range_words store.now m r r i hi ++ drop (length (range_words store.now m r r i hi)) list.old }
{
    let mut d = i;
    let mut at = 0;
    for _turn in 0..r {
        if d == 0 {
            return;
        }
        let key = groups::descriptor_key(store, m, d);
        if hi < key {
            return;
        }
        let first = groups::descriptor_first(store, m, d) as usize;
        let n = write_group(store, &mut list[at..], m, r, first, key);
        at += 2 * n;
        d = groups::descriptor_next(store, m, d) as usize;
    }
}
