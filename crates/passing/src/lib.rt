// The keys that a locate has passed, and who must hold a stored key and the gap behind it.
//
// Which locates have passed a key changes at few keys, so it is found for a range of keys, and found anew only where it may change. Whose
// locates are asked to hold a key and its gap EQUALS a definition of specs/Asked, which looks at each key by itself; specs/Passed says what
// is kept from one key to the next. It rests on the crates locks, sessions, marks and holders.
#![tactic(auto)]

ghost use Rattle.std.specs.Prelude.{◌≡◌, ◌&&◌, ◌+◌, min, ltb, leb};
ghost use Rattle.holders.specs.Holders.{sessions_with};
ghost use Rattle.passing.specs.Asked.{has_passed, needs_gap, asked_at};
ghost use Rattle.passing.specs.Passed.{changes_at, passed_at, Knows, Covers};

use sessions::{PARTIES, Session, Stage};

// ---- one locate

fn after(key: u32) -> usize
    ensures { result ≡ key + 1 }
{
    let k = key as usize;
    k + 1
}

// A locate that takes, and has taken a key, has passed the keys from first to the last one taken.
fn has_passed(s: Session, key: u32) -> bool
    ensures { result ≡ has_passed key s }
{
    if s.stage != Stage::Take as u32 {
        return false;
    }
    if s.last == 0 {
        return false;
    }
    if key < s.first {
        return false;
    }
    key <= s.last
}

// It needs the gap behind a stored key too, but for a gap that has no key where the next stored key is passed as well.
fn needs_gap(s: Session, key: u32, next: u32) -> bool
    ensures { result ≡ needs_gap key next s }
{
    if !has_passed(s, key) {
        return false;
    }
    let n = next as usize;
    if n != after(key) {
        return true;
    }
    !has_passed(s, next)
}

// The key, above the given one, from which on it may be otherwise whether s has passed; for none 4294967296, which lies above every key, so
// that the lowest of several is found with no case for none.
fn changes_at(s: Session, key: u32) -> usize
    ensures { result ≡ changes_at key s }
{
    let first = s.first;
    let last = s.last;
    if s.stage != Stage::Take as u32 {
        return 4294967296;
    }
    if last == 0 {
        return 4294967296;
    }
    if last < key {
        return 4294967296;
    }
    if key < first {
        return first as usize;
    }
    after(last)
}

// ---- all sessions

// Which locates have passed the keys from `from` on and below `until`: the same for all of them.
#[derive(Clone, Copy)]
pub struct Passed {
    pub mask: u32,
    pub from: usize,
    pub until: usize,
}

// The same, found for a key.
pub fn passed_at(t: [Session; PARTIES], key: u32) -> Passed
    ensures { result ≡ passed_at t key }
{
    let from = key as usize;
    let mut mask = 0;
    let mut until = 4294967296;
    for p in 1..PARTIES {
        let s = t[p];
        mask = holders::with_if(has_passed(s, key), mask, p);
        until = until.min(changes_at(s, key));
    }
    Passed { mask, from, until }
}

fn is_covered(so: Passed, key: u32) -> bool
    ensures { result ≡ (leb so.from key && ltb key so.until) }
{
    let k = key as usize;
    if k < so.from {
        return false;
    }
    k < so.until
}

// What is known, or what is found anew, for a key.
pub fn passed_next(t: [Session; PARTIES], key: u32, so: Passed) -> Passed
    requires { Knows t so }
    ensures { Covers t key result }
{
    if is_covered(so, key) {
        return so;
    }
    passed_at(t, key)
}

// The sessions that need the gap behind a stored key.
fn needing_gap(t: [Session; PARTIES], key: u32, next: u32) -> u32
    ensures { result ≡ sessions_with (needs_gap key next) t }
{
    let mut mask = 0;
    for p in 1..PARTIES {
        mask = holders::with_if(needs_gap(t[p], key, next), mask, p);
    }
    mask
}

// The same, from what is known for the key.
fn gap_mask(t: [Session; PARTIES], key: u32, next: u32, so: Passed) -> u32
    requires { Covers t key so }
    ensures { result ≡ sessions_with (needs_gap key next) t }
{
    let n = next as usize;
    if n != after(key) {
        return so.mask;
    }
    if n < so.until {
        return 0;
    }
    needing_gap(t, key, next)
}

// Whose locates must hold a stored key, and the gap behind it.
#[derive(Clone, Copy)]
pub struct Asked {
    pub locate: u32,
    pub gap: u32,
}

pub fn asked_at(t: [Session; PARTIES], key: u32, next: u32, so: Passed) -> Asked
    requires { Covers t key so }
    ensures { result ≡ asked_at t key next }
{
    let gap = gap_mask(t, key, next, so);
    Asked {
        locate: so.mask,
        gap,
    }
}
