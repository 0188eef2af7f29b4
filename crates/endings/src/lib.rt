// Endings: a session's locks end, a store is made anew, and a session's record is changed by value.
//
// A session that ends leaves every word of holders: the two of each entry, and the three of each descriptor along the chain of
// descriptors. A fresh store has one node, the descriptor of key 0, and every other record free. Each function promises that its result, or
// the store it leaves, EQUALS a definition of specs/: Leave, Fresh, Table. specs/LeaveLaws says what a session that leaves a descriptor keeps.
// It rests on the crates words, kinds, nodes, groups, chain, locks and sessions.
#![tactic(auto)]

ghost use Rattle.std.specs.Prelude.{◌≡◌, ◌+◌, ◌-◌, ◌≤◌, length};
ghost use Rattle.words.specs.Store.{HasRecord};
ghost use Rattle.words.specs.Entries.{HasEntry};
ghost use Rattle.sessions.specs.Sessions.{idle_session};
ghost use Rattle.chain.specs.Walk.{Walk};
ghost use Rattle.endings.specs.Leave.{IsSession, HasEntries, leave_entry, leave_entries, left_descriptor, leave_group, leave_groups};
ghost use Rattle.endings.specs.Fresh.{Roomy, fresh_header, fresh_entry, fresh_entries, zero_descriptor, fresh_free, fresh_store};
ghost use Rattle.endings.specs.Table.{logged_by, idled, unbegun, newly_begun, asked_now, requested};

use groups::Descriptor;
use kinds::Record;
use nodes::Node;
use sessions::{Session, Stage};
use words::Field;

// ---- a session's locks end

// Session p leaves the holders of entry e.
fn leave_entry(store: &mut [u32], e: usize, p: u32)
    requires { HasEntry store.old e × IsSession p }
    ensures { store.new ≡ leave_entry store.old p e }
{
    let share = words::entry_word(store, e, Field::Share);
    let exclusive = words::entry_word(store, e, Field::Exclusive);
    words::set_entry_word(store, e, Field::Share, locks::without_session(share, p));
    words::set_entry_word(
        store,
        e,
        Field::Exclusive,
        locks::without_session(exclusive, p),
    );
}

// Session p leaves the holders of every entry.
pub fn leave_entries(store: &mut [u32], m: usize, p: u32)
    requires { HasEntries store.old m × IsSession p }
    ensures { store.new ≡ leave_entries store.old p m }
{
    for e in 1..m + 1 {
        leave_entry(store, e, p);
    }
}

// A descriptor that session p has left.
fn left_descriptor(d: Descriptor, p: u32) -> Descriptor
    requires { IsSession p }
    ensures { result ≡ left_descriptor p d }
{
    let locate = locks::without_session(d.locate, p);
    let update = locks::without_session(d.update, p);
    let gap = locks::without_session(d.gap, p);
    d.release_session(locate, update, gap)
}

// Session p leaves the holders of the descriptor at record i.
fn leave_group(store: &mut [u32], m: usize, i: usize, p: u32)
    requires { HasRecord store.old m i × IsSession p }
    ensures { store.new ≡ leave_group store.old m p i }
{
    let d = Descriptor::load(store, m, i);
    left_descriptor(d, p).write(store, m, i);
}

// Session p leaves the holders of every descriptor from record i on, at most r of them.
pub fn leave_groups(store: &mut [u32], m: usize, r: usize, i: usize, p: u32)
    requires { Walk store.old m r i × IsSession p }
    ensures { store.new ≡ leave_groups store.old m p r i }
{
    let mut d = i;
    for _turn in 0..r {
        if d == 0 {
            return;
        }
        let next = words::word(store, m, d, 0) as usize;
        leave_group(store, m, d, p);
        d = next;
    }
}

// ---- a fresh store

// The header of a fresh store; no record is free yet.
fn fresh_header(store: &mut [u32], m: u32, r: u32)
    requires { 16 ≤ length store.old }
    ensures { store.new ≡ fresh_header store.old m r }
{
    words::set_entries(store, m);
    words::set_records(store, r);
    words::set_root(store, 1);
    words::set_height(store, 1);
    words::set_first(store, 2);
    words::set_free(store, 0);
}

// Entry e has no value and no holders.
fn fresh_entry(store: &mut [u32], e: usize)
    requires { HasEntry store.old e }
    ensures { store.new ≡ fresh_entry store.old e }
{
    words::set_entry_word(store, e, Field::Value, 0);
    words::set_entry_word(store, e, Field::Share, 0);
    words::set_entry_word(store, e, Field::Exclusive, 0);
}

fn fresh_entries(store: &mut [u32], m: usize)
    requires { HasEntries store.old m }
    ensures { store.new ≡ fresh_entries store.old m }
{
    for e in 1..m + 1 {
        fresh_entry(store, e);
    }
}

// The descriptor of key 0: no holders, no pins, no member, none behind it.
fn zero_descriptor() -> Descriptor
    ensures { result ≡ zero_descriptor }
{
    Descriptor {
        next: 0,
        key: 0,
        locate: 0,
        update: 0,
        gap: 0,
        pins: 0,
        first: 0,
    }
}

// The records behind the second become free, the last one first, so that they are chained in order.
fn fresh_free(store: &mut [u32], m: usize, r: usize)
    requires { Roomy store.old m r }
    ensures { store.new ≡ fresh_free store.old m 3 (r - 2) }
{
    for i in (3..r + 1).rev() {
        chain::push_free(store, m, i);
    }
}

// The store that an accepted format leaves.
pub fn fresh_store(store: &mut [u32], m: usize, r: usize)
    requires { Roomy store.old m r }
    ensures { store.new ≡ fresh_store store.old m r }
{
    fresh_header(store, m as u32, r as u32);
    fresh_entries(store, m);
    Node::lone(2).write(store, m, 1);
    zero_descriptor().write(store, m, 2);
    fresh_free(store, m, r);
}

// ---- a session's record by value

// A party that has never done anything.
pub fn fresh_session() -> Session
    ensures { result ≡ idle_session }
{
    Session::default()
}

// The request in hand ends.
pub fn idle_session(mut x: Session) -> Session
    ensures { result ≡ idled x }
{
    x.stage = Stage::Idle as u32;
    x
}

// The request ends, and record i is the newest undo record.
pub fn logged_session(mut x: Session, i: u32) -> Session
    ensures { result ≡ logged_by x i }
{
    x.stage = Stage::Idle as u32;
    x.undo = i;
    x
}

// The session ends.
pub fn ended_session(mut x: Session) -> Session
    ensures { result ≡ unbegun x }
{
    x.begun = 0;
    x.stage = Stage::Idle as u32;
    x.undo = 0;
    x.order = 0;
    x.asked = 0;
    x
}

// The session begins, and number is its place in the order of begins.
pub fn begun_session(mut x: Session, number: u32) -> Session
    ensures { result ≡ newly_begun x number }
{
    x.begun = 1;
    x.stage = Stage::Idle as u32;
    x.undo = 0;
    x.order = number;
    x.asked = 0;
    x
}

// The session is asked.
pub fn asked_session(mut x: Session) -> Session
    ensures { result ≡ asked_now x }
{
    x.asked = 1;
    x
}

// A request comes to hand at its first stage, with the key that its descent goes to.
pub fn put_session(
    x: Session,
    code: u32,
    entry: u32,
    first: u32,
    second: u32,
    stage: u32,
    target: u32,
) -> Session
    ensures { result ≡ requested x code entry first second stage target }
{
    Session {
        code,
        entry,
        first,
        second,
        stage,
        target,
        at: 0,
        level: 0,
        low: 0,
        high: 0,
        last: 0,
        ..x
    }
}
