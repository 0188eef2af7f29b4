// Days: a session's next day call, by chance. It keeps a day, goes on with it from the place that was returned last, and now and then hands in something else.
use crate::keys::{any_word, some_entry, some_key};
use books::book::Book;
use books::call::{Call, DayCall};
use naive::Model;
use schedules::days::{Day, Progress, ROOM};
use schedules::random::Random;
use schedules::side::{PARTIES, Side};

// ---- the day that is kept

// Word i of a day, with a minute and any other bits.
fn put_word(random: &mut Random, day: &mut Day, i: usize, minute: u32) {
    day.set_word(i, random.word(), minute);
}

// The minutes from one word to the next: mostly few, and none now and then.
fn minutes(random: &mut Random) -> u32 {
    if random.chance(1, 16) {
        random.below(700)
    } else {
        random.below(5)
    }
}

fn put_words(random: &mut Random, day: &mut Day, n: u32) {
    day.set_len(2 * n as usize);
    let mut minute = 0u32;
    for i in 0..n as usize {
        put_word(random, day, i, minute);
        minute = minute.wrapping_add(minutes(random));
    }
}

// Another minute for a word: of the day, the last of it, or past it.
fn other_minute(random: &mut Random) -> u32 {
    match random.below(8) {
        0 => 1440,
        1 => random.below(608).wrapping_add(1440),
        2 => 1439,
        3 => random.below(1440),
        _ => random.below(10),
    }
}

fn spoil_word(random: &mut Random, day: &mut Day) {
    let i = random.below(day.words().min(ROOM) as u32);
    let minute = other_minute(random);
    put_word(random, day, i as usize, minute);
}

// Other bytes: one more, none, or a word with another minute.
fn spoil(random: &mut Random, day: &mut Day) {
    let k = random.below(8);
    if k < 2 {
        day.set_len(day.bytes().len() | 1);
    }
    match k {
        0 => {}
        2 => day.set_len(0),
        3 => put_word(random, day, 0, 1),
        _ => spoil_word(random, day),
    }
}

// How many words a day has, mostly no more than there are entries.
fn some_words(b: &mut Book) -> u32 {
    let most = b.round.size.entries.min(4);
    if b.random.chance(1, 16) {
        b.random.below(11).wrapping_add(1)
    } else {
        b.random.below(most).wrapping_add(1)
    }
}

// The first entry of a day of n words: mostly one from which on there are as many.
fn first_entry(b: &mut Book, n: u32) -> u32 {
    let entries = b.round.size.entries;
    if entries < n || b.random.chance(1, 20) {
        return some_entry(b);
    }
    b.random
        .below((entries - n).wrapping_add(1))
        .wrapping_add(1)
}

// A key of the round that a day may have; a small one is taken for a minute of driver 1.
fn day_key(s: &Side, b: &mut Book) -> u32 {
    let k = some_key(s, b);
    if k < 1048576 { k + 1048576 } else { k }
}

// A start from which on the key with this low part is a minute of the day, mostly one of the first.
fn some_start(b: &mut Book, low: u32) -> u32 {
    let back = b.random.below(6);
    if 1047136 < low {
        1047136
    } else if low < back {
        low
    } else {
        low - back
    }
}

fn put_numbers(s: &Side, b: &mut Book, day: &mut Day, n: u32) {
    let k = day_key(s, b);
    day.driver = k >> 20;
    day.start = some_start(b, k % 1048576);
    day.entry = first_entry(b, n);
    day.place = 0;
    day.progress = Progress::UnderWay;
}

fn make_day(s: &Side, b: &mut Book, p: u32) {
    let mut day = b.round.party(p).day;
    let n = some_words(b);
    put_words(&mut b.random, &mut day, n);
    put_numbers(s, b, &mut day, n);
    if b.random.chance(1, 8) {
        spoil(&mut b.random, &mut day);
    }
    b.round.party_mut(p).day = day;
}

// ---- the call

// The call with what the party keeps.
fn kept_call(b: &Book, p: u32) -> DayCall {
    let day = &b.round.party(p).day;
    DayCall {
        party: p,
        place: day.place,
        entry: day.entry,
        driver: day.driver,
        start: day.start,
    }
}

// Another number: so much more, one that is given, or any.
fn other(b: &mut Book, x: u32, more: u32, given: u32) -> u32 {
    match b.random.below(4) {
        0 => x.wrapping_add(more),
        1 => given,
        _ => any_word(b),
    }
}

// The call by another party, often one of the first, which keeps the same day from now on, or one like it.
fn by_other(b: &mut Book, c: DayCall) -> DayCall {
    let most = b.random.below(PARTIES as u32 + 2);
    let party = b.random.below(most);
    let mut day = b.round.party(c.party).day;
    if b.random.chance(1, 2) {
        spoil(&mut b.random, &mut day);
    }
    b.round.party_mut(party).day = day;
    DayCall { party, ..c }
}

// The call with another driver, start, entry, party or place.
fn forged(b: &mut Book, c: DayCall) -> DayCall {
    let entries = b.round.size.entries;
    match b.random.below(8) {
        0 => DayCall {
            driver: other(b, c.driver, 4096, 4095),
            ..c
        },
        1 => DayCall {
            start: other(b, c.start, 1, 1047137),
            ..c
        },
        2 => DayCall {
            entry: other(b, c.entry, entries, 0),
            ..c
        },
        3 => by_other(b, c),
        _ => DayCall {
            place: other(b, c.place, 1, 0),
            ..c
        },
    }
}

// The day goes on, mostly as it is kept.
pub fn go_on(b: &mut Book, p: u32) -> Call {
    if b.random.chance(1, 80) {
        let mut day = b.round.party(p).day;
        spoil(&mut b.random, &mut day);
        b.round.party_mut(p).day = day;
    }
    let c = kept_call(b, p);
    if b.random.chance(1, 24) {
        Call::Day(forged(b, c))
    } else {
        Call::Day(c)
    }
}

// A day of its own, and its first call, in which now and then two things are wrong.
pub fn begin_day(s: &Side, b: &mut Book, p: u32) -> Call {
    make_day(s, b, p);
    let c = kept_call(b, p);
    if b.random.chance(1, 8) {
        let x = forged(b, c);
        Call::Day(forged(b, x))
    } else {
        Call::Day(c)
    }
}

// ---- when

// In doubt a session gives its day up, or goes on.
fn is_kept_on(b: &mut Book, p: u32) -> bool {
    let is_kept = b.random.chance(1, 2);
    if !is_kept {
        b.round.party_mut(p).day.progress = Progress::None;
    }
    is_kept
}

// A session that waits steps or gives up by ordinary calls more often.
fn is_at_it(b: &mut Book, p: u32) -> bool {
    if b.round.party(p).waited {
        b.random.chance(2, 4)
    } else {
        b.random.chance(15, 16)
    }
}

// Is the next call of session p a day call? Not of one that has finished so much that it has to commit, and seldom of one that is not begun.
pub fn goes_on(a: &Model, b: &mut Book, p: u32) -> bool {
    let party = b.round.party(p);
    let progress = party.day.progress;
    if progress == Progress::None || 190 < party.log.len() {
        return false;
    }
    if !a.begun(p) && !b.random.chance(1, 16) {
        return false;
    }
    if progress == Progress::InDoubt {
        is_kept_on(b, p)
    } else {
        is_at_it(b, p)
    }
}
