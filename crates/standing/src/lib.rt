// Standing: a request in hand stands where its own steps can bring it.
//
// A party at a node has its latch (document 01's short lock) there, and the node is on the path to its key, at its level, and has room
// for what its next step may do. An insert or remove past its start holds its entry. What a request pins (document 01: seizes) are
// the descriptors of its keys; each pin is counted, so that the crate holdings can compare the counts. Each function's result, and the
// counts it leaves, EQUAL a definition of specs/Standing. It rests on the crates words, kinds, nodes, groups, locks, sessions, marks and requests.
#![tactic(auto)]

ghost use Rattle.std.specs.Prelude.{◌≡◌, ◌<◌, length};
ghost use Rattle.sessions.specs.Sessions.{parties};
ghost use Rattle.marks.specs.Trail.{Turned};
ghost use Rattle.standing.specs.Standing.{son_on, descend_from, may_stand, descent_ok, latch_ok, is_stored, one_more_of, pins_in, change_stands, locate_stands, tidy_stands, stands_at, party_ok};

use kinds::Record;
use marks::{Mark, Records};
use nodes::Node;
use sessions::{Code, Session, Stage};
use words::Field;

// ---- descents and latches

// The son of a node on the path to a key; 0, by which a store names no record, where the node has no son or more than 8.
fn son_on(n: Node, key: u32) -> usize
    ensures { result ≡ son_on n key }
{
    let sons = n.sons;
    if n.count == 0 {
        return 0;
    }
    if 8 < n.count {
        return 0;
    }
    let k = n.find_son(key);
    sons[k] as usize
}

// The record so many levels below record i on the path to a key; 0, by which a store names no record, where one on it is none of the store's.
fn descend(records: Records, i: usize, levels: usize, key: u32) -> usize
    ensures { result ≡ descend_from records.entry.store.now records.entry.m records.entry.r key i levels }
{
    let Records { store, m, r } = records;
    let mut at = i;
    for _level in 0..levels {
        if at == 0 {
            return 0;
        }
        if r < at {
            return 0;
        }
        let n = Node::load(store, m, at);
        at = son_on(n, key);
    }
    at
}

// A node that party p may stand at: a session one of at most 7 sons, the housekeeper one of at least 4, or the root, with no lone
// node for a son.
#[tactic(auto, unfolding(crate::specs::Standing::may_stand))]
fn may_stand(p: usize, n: Node, level: usize, height: usize) -> bool
    ensures { result ≡ may_stand p n level height }
{
    if p == 0 {
        4 <= n.count || (level == height && (level == 1 || 2 <= n.count))
    } else {
        n.count <= 7
    }
}

// The party's node is on the path to its target, at its level, and has its latch.
#[tactic(auto, unfolding(crate::specs::Standing::descent_ok, crate::specs::Standing::at_node))]
fn descent_ok(records: Records, p: usize, s: Session) -> bool
    requires { p < parties }
    ensures { result ≡ descent_ok records.entry.store.now records.entry.m records.entry.r p s }
{
    let Records { store, m, r } = records;
    let root = words::root(store) as usize;
    let height = words::height(store) as usize;
    let level = s.level as usize;
    if level == 0 || height < level {
        return false;
    }
    let i = descend(records, root, height - level, s.target);
    if i != s.at as usize || i == 0 || r < i {
        return false;
    }
    let n = Node::load(store, m, i);
    n.latch as usize == p + 1 && may_stand(p, n, level, height)
}

// A party at a node has its latch there; any other has none.
#[tactic(auto, unfolding(crate::specs::Standing::latch_ok))]
fn latch_ok(records: Records, p: usize, s: Session) -> bool
    requires { p < parties }
    ensures { result ≡ latch_ok records.entry.store.now records.entry.m records.entry.r p s }
{
    s.stage != Stage::AtNode as u32 || descent_ok(records, p, s)
}

// ---- keys and pins

// The key is stored: the path to it ends at its descriptor.
#[tactic(auto, unfolding(crate::specs::Standing::is_stored, crate::specs::Standing::has_key))]
fn is_stored(records: Records, key: u32) -> bool
    ensures { result ≡ is_stored records.entry.store.now records.entry.m records.entry.r key }
{
    let Records { store, m, r } = records;
    let root = words::root(store) as usize;
    let height = words::height(store) as usize;
    let i = descend(records, root, height, key);
    i != 0 && i <= r && groups::descriptor_key(store, m, i) == key
}

// One more, to 255.
fn one_more(x: u8) -> u8
    ensures { result ≡ one_more_of x }
{
    if x == 255 {
        return 255;
    }
    x + 1
}

// Record i is the descriptor of the key; its pin is counted.
fn count_pin(records: Records, seen: &[u8], tally: &mut [u8], i: usize, key: u32) -> bool
    requires { (records.r < length seen.now) × (records.r < length tally.old) }
    ensures { Turned (pins_in records.entry.store.now seen.now records.entry.m records.entry.r i key tally.old) result tally.new }
{
    let Records { store, m, r } = records;
    if !Mark::Descriptor.is_met(seen, r, i) {
        return false;
    }
    let found = groups::descriptor_key(store, m, i);
    if found != key {
        return false;
    }
    let x = tally[i];
    tally[i] = one_more(x);
    true
}

// ---- requests

// An insert or remove past its start has its entry's exclusive lock, and at its change has pinned its group.
fn change_stands(records: Records, seen: &[u8], tally: &mut [u8], p: usize, s: Session) -> bool
    requires { (records.r < length seen.now) × (records.r < length tally.old) × (p < parties) }
    ensures { Turned (change_stands records.entry.store.now seen.now records.entry.m records.entry.r p s tally.old) result tally.new }
{
    let Records { store, m, .. } = records;
    if s.stage == Stage::Start as u32 {
        return true;
    }
    if p == 0 {
        return false;
    }
    let entry = s.entry;
    if !marks::entry_ok(entry, m) {
        return false;
    }
    let e = entry as usize;
    let exclusive = words::entry_word(store, e, Field::Exclusive);
    let session = p as u32;
    if !locks::holds_session(exclusive, session) {
        return false;
    }
    if s.stage != Stage::Change as u32 {
        return true;
    }
    let low = s.low as usize;
    let key = s.first;
    count_pin(records, seen, tally, low, key)
}

// A locate that takes has pinned both ends, and on its second descent the first.
fn locate_stands(records: Records, seen: &[u8], tally: &mut [u8], s: Session) -> bool
    requires { (records.r < length seen.now) × (records.r < length tally.old) }
    ensures { Turned (locate_stands records.entry.store.now seen.now records.entry.m records.entry.r s tally.old) result tally.new }
{
    let low = s.low as usize;
    let first = s.first;
    if s.stage != Stage::Take as u32 {
        if s.target == s.first {
            return true;
        }
        return count_pin(records, seen, tally, low, first);
    }
    if !count_pin(records, seen, tally, low, first) {
        return false;
    }
    if s.first == s.second {
        return true;
    }
    let high = s.high as usize;
    let second = s.second;
    count_pin(records, seen, tally, high, second)
}

// A tidy on its way has a stored choice.
#[tactic(auto, unfolding(crate::specs::Standing::tidy_stands))]
fn tidy_stands(records: Records, s: Session) -> bool
    ensures { result ≡ tidy_stands records.entry.store.now records.entry.m records.entry.r s }
{
    s.stage == Stage::Start as u32 || is_stored(records, s.target)
}

// A request in hand stands where its own steps can bring it.
fn stands(records: Records, seen: &[u8], tally: &mut [u8], p: usize, s: Session) -> bool
    requires { (records.r < length seen.now) × (records.r < length tally.old) × (p < parties) }
    ensures { Turned (stands_at records.entry.store.now seen.now records.entry.m records.entry.r p s tally.old) result tally.new }
{
    if !latch_ok(records, p, s) {
        return false;
    }
    if s.code <= Code::Write as u32 {
        return true;
    }
    if s.code <= Code::Remove as u32 {
        return change_stands(records, seen, tally, p, s);
    }
    if s.code == Code::Locate as u32 {
        return locate_stands(records, seen, tally, s);
    }
    tidy_stands(records, s)
}

// Party p: its request, if it has one, passes put's checks and stands where its steps can bring it.
pub fn party_ok(records: Records, seen: &[u8], tally: &mut [u8], p: usize, s: Session) -> bool
    requires { (records.r < length seen.now) × (records.r < length tally.old) × (p < parties) }
    ensures { Turned (party_ok records.entry.store.now seen.now records.entry.m records.entry.r p s tally.old) result tally.new }
{
    let Records { m, .. } = records;
    if !requests::request_ok(p, s, m) {
        return false;
    }
    if s.stage == Stage::Idle as u32 {
        return true;
    }
    stands(records, seen, tally, p, s)
}
