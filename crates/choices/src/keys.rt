// Keys: random keys and entries, as the round wants them.
use crate::shares::Shares;
use books::book::{Book, Keys, Phase};
use schedules::random::with_word;
use schedules::side::Side;

// One of so many numbers as the round has keys.
fn in_range(b: &mut Book) -> u32 {
    b.random.below(b.round.size.range)
}

// A key of the whole range: one of so many that are fixed for the round, or one at an end.
fn whole_key(b: &mut Book) -> u32 {
    if b.random.chance(1, 16) {
        return b.random.below(5).wrapping_add(4294967292);
    }
    let k = in_range(b);
    with_word(b.round.number, k)
}

// A key packed of a high and a low part, as document 01's planner packs driver and minute.
fn packed_key(b: &mut Book) -> u32 {
    let high = b.random.below(6).wrapping_add(1) << 20;
    high.wrapping_add(in_range(b))
}

// A key a little above the last one.
fn rising_key(b: &mut Book) -> u32 {
    let last = b.round.risen.wrapping_add(1);
    b.round.risen = last.wrapping_add(b.random.below(3));
    b.round.risen
}

// A key of the round, stored or not.
fn fresh_key(b: &mut Book) -> u32 {
    if b.round.phase == Phase::Rise {
        return rising_key(b);
    }
    match b.round.size.keys {
        Keys::Small => in_range(b).wrapping_add(1),
        Keys::Whole => whole_key(b),
        Keys::Packed => packed_key(b),
    }
}

// Some descriptor.
pub fn some_descriptor(s: &Side, b: &mut Book) -> u32 {
    s.descriptor(b.random.below(s.descriptors().count() as u32))
}

// A stored key, or sometimes one beside it.
fn stored_key(s: &Side, b: &mut Book) -> u32 {
    let k = s.key_of(some_descriptor(s, b));
    if b.random.chance(1, 6) {
        return k.wrapping_add(b.random.below(3)).wrapping_sub(1);
    }
    if k == 0 {
        return fresh_key(b);
    }
    k
}

pub fn some_key(s: &Side, b: &mut Book) -> u32 {
    if b.random.chance(Shares::at(b.round.phase).stored, 8) {
        stored_key(s, b)
    } else {
        fresh_key(b)
    }
}

// An entry, sometimes one that is none.
pub fn some_entry(b: &mut Book) -> u32 {
    let entries = b.round.size.entries;
    if b.random.chance(1, 40) {
        return entries.wrapping_add(1);
    }
    if b.random.chance(1, 80) {
        return 0;
    }
    b.random.below(entries).wrapping_add(1)
}

// Any word, mostly a small one.
pub fn any_word(b: &mut Book) -> u32 {
    match b.random.below(4) {
        0 => b.random.word(),
        1 => b.random.below(8).wrapping_sub(4),
        _ => b.random.below(20),
    }
}
