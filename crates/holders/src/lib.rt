// Holders words: only begun sessions hold, and no two holders conflict.
//
// The test of a weak and a strong holders word, for entries and for groups; the begun sessions, as a holders word; and the holders of every
// entry. Conflicts come from the lock table only. Each function's result EQUALS a definition of specs/Holders. It rests on the crates words,
// locks, sessions and marks.
#![tactic(auto)]

ghost use Rattle.std.specs.Prelude.{◌≡◌, cond, ◌&&◌, ◌||◌, ◌≤◌, ◌<◌};
ghost use Rattle.locks.specs.Rule.{agrees_of};
ghost use Rattle.locks.specs.Holders.{held_by};
ghost use Rattle.sessions.specs.Sessions.{parties, is_begun};
ghost use Rattle.holders.specs.Holders.{within, lone, alone, agree, holders_ok, begun_mask, entries_from};

use marks::Records;
use sessions::{PARTIES, Session};
use words::Field;

// ---- two words

// All of `some` are among `all`.
pub fn within(some: u32, all: u32) -> bool
    ensures { result ≡ within some all }
{
    some & all == some
}

// At most one holds.
fn lone(word: u32) -> bool
    ensures { result ≡ lone word }
{
    if word == 0 {
        return true;
    }
    locks::lock_count(word) <= 1
}

// No session is in one word and another in the other.
fn alone(a: u32, b: u32) -> bool
    ensures { result ≡ alone a b }
{
    if a == 0 {
        return true;
    }
    if b == 0 {
        return true;
    }
    lone(a | b)
}

// A mode agrees with itself, or at most one holds in it.
fn lone_unless(agrees: bool, word: u32) -> bool
    ensures { result ≡ (agrees || lone word) }
{
    if agrees {
        return true;
    }
    lone(word)
}

// The two modes agree, whichever is held.
fn both_ways(kind: usize) -> bool
    requires { kind < 2 }
    ensures { result ≡ (agrees_of kind 0 1 && agrees_of kind 1 0) }
{
    if !locks::agrees(kind, 0, 1) {
        return false;
    }
    locks::agrees(kind, 1, 0)
}

// No two different sessions hold in modes that do not agree by the lock table, of those that hold in the weak mode (share, locate) and in
// the strong one (exclusive, update).
fn agree(kind: usize, weak: u32, strong: u32) -> bool
    requires { kind < 2 }
    ensures { result ≡ agree kind weak strong }
{
    let w = locks::agrees(kind, 0, 0);
    if !lone_unless(w, weak) {
        return false;
    }
    let s = locks::agrees(kind, 1, 1);
    if !lone_unless(s, strong) {
        return false;
    }
    if both_ways(kind) {
        return true;
    }
    alone(weak, strong)
}

// Only begun sessions hold, and no two conflict.
pub fn holders_ok(kind: usize, weak: u32, strong: u32, begun: u32) -> bool
    requires { kind < 2 }
    ensures { result ≡ holders_ok kind weak strong begun }
{
    if !within(weak, begun) {
        return false;
    }
    if !within(strong, begun) {
        return false;
    }
    agree(kind, weak, strong)
}

// ---- begun sessions, entries

// The holders, with session p where it has a property.
pub fn with_if(has: bool, word: u32, p: usize) -> u32
    requires { (1 ≤ p) × (p < parties) }
    ensures { result ≡ cond has (held_by p word) word }
{
    if !has {
        return word;
    }
    let session = p as u32;
    locks::with_session(word, session)
}

fn is_begun(s: Session) -> bool
    ensures { result ≡ is_begun s }
{
    s.begun != 0
}

// The begun sessions, as a holders word.
pub fn begun_mask(t: [Session; PARTIES]) -> u32
    ensures { result ≡ begun_mask t }
{
    let mut mask = 0;
    for p in 1..PARTIES {
        mask = with_if(is_begun(t[p]), mask, p);
    }
    mask
}

// Every entry's holders.
pub fn entries_ok(records: Records, begun: u32) -> bool
    ensures { result ≡ entries_from records.entry.store.now begun 1 records.entry.m }
{
    let Records { store, m, .. } = records;
    for e in 1..m + 1 {
        let share = words::entry_word(store, e, Field::Share);
        let exclusive = words::entry_word(store, e, Field::Exclusive);
        if !holders_ok(0, share, exclusive, begun) {
            return false;
        }
    }
    true
}
