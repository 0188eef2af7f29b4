// Sound: the test that a store and a session table are sound, in document 01's sense ("Sound means"), with document 02's M-101, M-104 and M-105.
//
// `first_fault` runs the passes one after the other and answers the first part that is broken, or that none is and how many records are
// free; `is_sound` answers whether none is. Neither asks anything of the words that it is given. What each says EQUALS a definition
// of specs/Sound (`first_fault`, `is_sound`); specs/Sizes has the sizes that format gives, specs/Faults the numbers of the parts. The time is
// linear in the words of the store. It rests on the crates words, groups, sessions, seniority, marks, undo_chains, parties, tree_walk, holders
// and holdings.
#![tactic(auto)]

ghost use Rattle.std.specs.Prelude.{◌≡◌, ◌+◌, ◌*◌, ◌≤◌, ◌<◌, length};
ghost use Rattle.marks.specs.Trail.{Ends};
ghost use Rattle.sound.specs.Sizes.{sizes_ok};
ghost use Rattle.tree_walk.specs.TreeWalk.{going};
ghost use Rattle.sound.specs.Faults.{fault_number};
ghost use Rattle.sound.specs.Sound.{checked, lowest_ok, free_from, finish_of, groups_then, undos_then, parties_then, fault_in, first_fault, is_sound};

use marks::{Mark, Records};
use sessions::{PARTIES, Session};
use tree_walk::Walk;

// ---- the parts

// A part that is broken, in the order in which they are tested, with document 01's words and the number by which a host knows it; 0 is no
// fault, and 11 the number of a lent table that is not of 17 records.
#[derive(Clone, Copy, PartialEq, Eq, Debug)]
pub enum Fault {
    // "the header's M and R are those format gives for this length"
    Sizes = 1,
    // of the entries: "only begun sessions hold; no two holders conflict"
    Entries = 2,
    // "key 0 is stored and has no member"
    KeyZero = 3,
    // "all leaves are descriptors at one depth, keys rising and chained in that order; boundaries separate sons .., and at a lowest node each
    // is the key of the descriptor before it; a node has 3 to 8 sons .., the root 1 to 8 and never a descriptor"; no record is reached twice
    Tree = 4,
    // "seize counts, short locks and walks match the requests in hand, with each short lock on the path to its key; each request in hand passes
    // the checks that put makes on code and arguments, and stands where its own steps can bring it": a request does not
    Requests = 5,
    // "short locks .. match the requests in hand": a node has one that no request has
    Latches = 6,
    // "each take-back chain can be undone .. under locks that its session holds"; no record is reached twice
    Undos = 7,
    // of the groups: "no group lists an entry twice, or one outside 1 to M; only begun sessions hold; no two holders conflict; seize counts ..
    // match the requests in hand"; "a locate holds every key it has passed"; "each take-back chain can be undone newest first"; no record
    // is reached twice
    Groups = 8,
    // the free chain goes to a record that was reached, or that is none
    FreeChain = 9,
    // "every record is reached": one is not
    Unreached = 10,
    // "no two begun sessions share a number" (document 02, M-101)
    Orders = 12,
    // "only a begun session with no request in hand is asked" (document 02, M-105)
    Asked = 13,
}

impl Fault {
    // The part's number.
    pub fn number(self) -> u32
        ensures { result ≡ fault_number self }
    {
        self as u32
    }
}

// ---- sizes

// The header's M and R are those that format gives for this length.
#[tactic(auto, unfolding(crate::specs::Sizes::sizes_ok))]
fn sizes_ok(store: &[u32]) -> bool
    ensures { result ≡ sizes_ok store.now }
{
    let len = store.len();
    if len < 16 {
        return false;
    }
    let m = words::entries(store) as usize;
    if m < 1 || 1024 < m {
        return false;
    }
    let r = words::records_for(m, len);
    8 <= r && words::records(store) as usize == r
}

// ---- the passes, from the last to the first: each goes on with those behind it

// The free chain, from record first on. Mostly it goes to the record behind; that one is then met at its place and not by way of the link, so that
// the machine need not wait for one word before it looks at the next.
fn walk_free(records: Records, seen: &mut [u8], first: usize, left: usize) -> Result<usize, usize>
    requires { records.r < length seen.old }
    ensures { Ends _ (free_from records.entry.store.now records.entry.m records.entry.r seen.old first left) result seen.new 0 }
{
    let Records { store, m, r } = records;
    let mut i = first;
    let mut more = left;
    while i != 0 {
        more = Mark::Free.meet(seen, r, i, more)?;
        let ahead = i + 1;
        i = words::word(store, m, i, 0) as usize;
        if i == ahead {
            more = Mark::Free.meet(seen, r, ahead, more)?;
            i = words::word(store, m, ahead, 0) as usize;
        }
    }
    Ok(more)
}

// What is left are the free records, and they are all of the rest.
fn finish(records: Records, seen: &mut [u8], left: usize) -> Result<usize, Fault>
    requires { records.r < length seen.old }
    ensures { checked result ≡ finish_of records.entry.store.now records.entry.m records.entry.r seen.old left }
{
    let Records { store, .. } = records;
    let first = words::free(store) as usize;
    let more = walk_free(records, seen, first, left).or(Err(Fault::FreeChain))?;
    if more != 0 {
        return Err(Fault::Unreached);
    }
    Ok(left)
}

// The groups, with the undo records that are filed, and then the rest.
fn groups_then(
    records: Records,
    seen: &mut [u8],
    order: &[u16],
    tally: &[u8],
    files: &[u16],
    begun: u32,
    t: [Session; PARTIES],
    count: usize,
    left: usize,
) -> Result<usize, Fault>
    requires { (records.r < length seen.old) × (records.r < length tally.now) × (length order.now ≡ 4097) }
    ensures { checked result ≡ groups_then records.entry.store.now order.now tally.now files.now records.entry.m records.entry.r begun t count seen.old left }
{
    if 4097 < count {
        return Err(Fault::Groups);
    }
    let mut l = [0u16; 2050];
    let walked = holdings::walk_groups(
        records, seen, order, tally, files, &mut l, begun, t, count, left,
    );
    let more = walked.or(Err(Fault::Groups))?;
    finish(records, seen, more)
}

// The chains of undo records, and then the rest.
fn chains_then(
    records: Records,
    seen: &mut [u8],
    order: &[u16],
    tally: &[u8],
    begun: u32,
    t: [Session; PARTIES],
    count: usize,
    left: usize,
) -> Result<usize, Fault>
    requires { (records.r < length seen.old) × (records.r < length tally.now) × (length order.now ≡ 4097) }
    ensures { checked result ≡ undos_then records.entry.store.now order.now tally.now records.entry.m records.entry.r begun t count seen.old left }
{
    let mut f = [0u16; 12291];
    let walked = parties::all_undos(records, seen, &mut f, t, left);
    let more = walked.or(Err(Fault::Undos))?;
    groups_then(records, seen, order, tally, &f, begun, t, count, more)
}

// The same, with nothing filed where no session has an undo record: only chains need the room for them.
fn undos_then(
    records: Records,
    seen: &mut [u8],
    order: &[u16],
    tally: &[u8],
    begun: u32,
    t: [Session; PARTIES],
    count: usize,
    left: usize,
) -> Result<usize, Fault>
    requires { (records.r < length seen.old) × (records.r < length tally.now) × (length order.now ≡ 4097) }
    ensures { checked result ≡ undos_then records.entry.store.now order.now tally.now records.entry.m records.entry.r begun t count seen.old left }
{
    if parties::has_undos(t) {
        return chains_then(records, seen, order, tally, begun, t, count, left);
    }
    let f = [0u16; 1];
    groups_then(records, seen, order, tally, &f, begun, t, count, left)
}

// The requests in hand, as many latches as parties at a node, and then the rest.
fn parties_then(
    records: Records,
    seen: &mut [u8],
    order: &[u16],
    begun: u32,
    t: [Session; PARTIES],
    w: Walk,
) -> Result<usize, Fault>
    requires { (records.r < length seen.old) × (length order.now ≡ 4097) }
    ensures { checked result ≡ parties_then records.entry.store.now order.now records.entry.m records.entry.r begun t (going w) seen.old }
{
    let latches = w.latches;
    let count = w.count;
    let left = w.left;
    let mut tally = [0u8; 4097];
    if !parties::parties_ok(records, seen, &mut tally, t) {
        return Err(Fault::Requests);
    }
    if parties::standing_at_nodes(t) != latches {
        return Err(Fault::Latches);
    }
    undos_then(records, seen, order, &tally, begun, t, count, left)
}

// Key 0 is stored, first in the chain of descriptors, and has no member.
#[tactic(auto, unfolding(crate::specs::Sound::lowest_ok))]
fn lowest_ok(records: Records) -> bool
    ensures { result ≡ lowest_ok records.entry.store.now records.entry.m records.entry.r }
{
    let Records { store, m, r } = records;
    let d = words::first(store) as usize;
    d != 0
        && d <= r
        && groups::descriptor_key(store, m, d) == 0
        && groups::descriptor_first(store, m, d) == 0
}

// The whole test, where the sizes are right.
fn fault_in(records: Records, t: [Session; PARTIES]) -> Result<usize, Fault>
    ensures { checked result ≡ fault_in records.entry.store.now records.entry.m records.entry.r t }
{
    let begun = holders::begun_mask(t);
    if !holders::entries_ok(records, begun) {
        return Err(Fault::Entries);
    }
    if !lowest_ok(records) {
        return Err(Fault::KeyZero);
    }
    let mut seen = [0u8; 4097];
    let mut order = [0u16; 4097];
    let walked = tree_walk::walk_root(records, &mut seen, &mut order);
    let w = walked.or(Err(Fault::Tree))?;
    parties_then(records, &mut seen, &order, begun, t, w)
}

// The first part that is broken, or none and how many records are free.
pub fn first_fault(store: &[u32], t: [Session; PARTIES]) -> Result<usize, Fault>
    ensures { checked result ≡ first_fault store.now t }
{
    if !sizes_ok(store) {
        return Err(Fault::Sizes);
    }
    let m = words::entries(store) as usize;
    let r = words::records(store) as usize;
    let free = fault_in(Records { store, m, r }, t)?;
    if !seniority::distinct(t) {
        return Err(Fault::Orders);
    }
    if !parties::marks_ok(t) {
        return Err(Fault::Asked);
    }
    Ok(free)
}

// The store and the table are sound.
pub fn is_sound(store: &[u32], t: [Session; PARTIES]) -> bool
    ensures { result ≡ is_sound store.now t }
{
    first_fault(store, t).is_ok()
}
