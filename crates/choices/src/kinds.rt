// Kinds: what a round is like, by its number: how large, which keys, how many calls, and what the sessions are at.
use books::book::{Book, Keys, Phase, Round, Size};
use books::call::Call;
use schedules::side::{ENTRY_WORDS, HEADER_WORDS, RECORD_WORDS, SESSIONS};

// How many kinds of rounds there are.
pub const KINDS: u32 = 10;

// A kind of round: how many sessions, entries and records it has; which keys, and how many of them.
#[derive(Clone, Copy)]
struct RoundKind(u32, u32, u32, Keys, u32);

fn kind(number: u32) -> RoundKind {
    match number % KINDS {
        0 => RoundKind(6, 3, 8, Keys::Small, 12),
        1 => RoundKind(SESSIONS, 16, 40, Keys::Small, 40),
        2 => RoundKind(6, 8, 24, Keys::Small, 12),
        3 => RoundKind(SESSIONS, 32, 200, Keys::Whole, 60),
        4 => RoundKind(6, 2, 20, Keys::Packed, 20),
        5 => RoundKind(SESSIONS, 32, 700, Keys::Small, 400),
        6 => RoundKind(6, 24, 40, Keys::Whole, 20),
        7 => RoundKind(SESSIONS, 20, 200, Keys::Packed, 300),
        8 => RoundKind(6, 32, 700, Keys::Whole, 200),
        _ => RoundKind(SESSIONS, 5, 32, Keys::Small, 12),
    }
}

// How many records more a round has, by chance.
fn more_records(b: &mut Book, number: u32) -> u32 {
    match number % KINDS {
        0 => b.random.below(8),
        4 => b.random.below(16),
        _ => 0,
    }
}

// Is it a round with few records?
fn is_small(size: &Size) -> bool {
    size.records < 100
}

// How many calls a round has, and at every how many the checker is asked.
pub fn turns(size: &Size) -> u32 {
    if is_small(size) { 6000 } else { 10000 }
}

pub fn checks(size: &Size) -> u32 {
    if is_small(size) {
        2
    } else {
        1 + size.records / 8
    }
}

// How many words a store of so many entries and records has.
fn fitting(entries: u32, records: u32) -> u32 {
    let words = HEADER_WORDS
        + ENTRY_WORDS * (entries % 64) as usize
        + RECORD_WORDS * (records % 1024) as usize;
    words as u32
}

// The book where a round begins.
pub fn start(b: &mut Book, number: u32) {
    let RoundKind(sessions, entries, fewest, keys, range) = kind(number);
    let records = fewest.wrapping_add(more_records(b, number));
    let size = Size {
        sessions,
        entries,
        records,
        keys,
        range,
        words: fitting(entries, records).wrapping_add(b.random.below(20)),
    };
    b.round = Round::new(number, size);
}

// What the sessions are at in each eighth of a small round, and of a large one.
static SMALL: [Phase; 8] = [
    Phase::Grow,
    Phase::Mix,
    Phase::Mix,
    Phase::Shrink,
    Phase::Grow,
    Phase::Mix,
    Phase::Shrink,
    Phase::Shrink,
];

static LARGE: [Phase; 8] = [
    Phase::Rise,
    Phase::Rise,
    Phase::Grow,
    Phase::Mix,
    Phase::Shrink,
    Phase::Mix,
    Phase::Shrink,
    Phase::Shrink,
];

// What the sessions are at in this turn of the round.
pub fn phase(size: &Size, turn: u32) -> Phase {
    let eighth = turn % 65536 * 8 / (1 + turns(size) % 65536) % 8;
    if is_small(size) {
        SMALL[eighth as usize]
    } else {
        LARGE[eighth as usize]
    }
}

// The round's first call.
pub fn first_call(size: &Size) -> Call {
    Call::Format {
        entries: size.entries,
        words: size.words,
    }
}
