// Choose: the next call, by chance.
use crate::days::{begin_day, go_on, goes_on};
use crate::keys::{any_word, some_descriptor, some_entry, some_key};
use crate::kinds::{KINDS, phase};
use crate::shares::Shares;
use books::book::{Book, Keys, Phase};
use books::call::{Call, DayCall};
use naive::Model;
use schedules::content::Membership;
use schedules::requests::{Code, Request};
use schedules::side::{ENTRY_WORDS, HEADER_WORDS, LARGEST, PARTIES, RECORD_WORDS, SESSIONS, Side};

// How many words a step's list has: mostly many.
fn listed(b: &mut Book) -> u32 {
    match b.random.below(8) {
        0 => b.random.below(10),
        1 => b.random.below(80),
        _ => 1024,
    }
}

fn step(b: &mut Book, party: u32) -> Call {
    Call::Step {
        party,
        listed: listed(b),
    }
}

// The words of the smallest store besides those of its entries, the words of an entry, and those of the largest store.
const LEAST: u32 = (HEADER_WORDS + 8 * RECORD_WORDS) as u32;

const ENTRY: u32 = ENTRY_WORDS as u32;

const MOST: u32 = LARGEST as u32;

// A format of too few words.
fn small_format(b: &mut Book) -> Call {
    let entries = 1 + b.random.below(32) % 32;
    let less = b.random.below(20).wrapping_add(1);
    Call::Format {
        entries,
        words: (LEAST + ENTRY * entries).wrapping_sub(less),
    }
}

// A format that is refused: of no entries, of too many, or of too few words.
fn bad_format(b: &mut Book) -> Call {
    match b.random.below(3) {
        0 => Call::Format {
            entries: 0,
            words: b.random.below(MOST),
        },
        1 => Call::Format {
            entries: b.random.below(4).wrapping_add(1025),
            words: MOST,
        },
        _ => small_format(b),
    }
}

// A number below n, or sometimes any.
fn mostly_below(b: &mut Book, n: u32) -> u32 {
    let x = b.random.below(n);
    if b.random.chance(1, 12) {
        b.random.word()
    } else {
        x
    }
}

fn any_request(b: &mut Book) -> Request {
    Request {
        code: mostly_below(b, 8),
        entry: any_word(b),
        first: any_word(b),
        second: any_word(b),
    }
}

// A call of any kind but format and recover, by any party, with any words; kind is a draw, and any above 6 is an ask.
fn any_call(b: &mut Book, kind: u32) -> Call {
    let party = mostly_below(b, PARTIES as u32 + 2);
    let request = any_request(b);
    b.round.spare = request;
    match kind {
        1 => Call::Begin(party),
        2 => Call::Put(party, request),
        3 => Call::Step {
            party,
            listed: request.first,
        },
        4 => Call::Commit(party),
        5 => Call::Abort(party),
        6 => Call::Day(DayCall {
            party,
            place: request.code,
            entry: request.entry,
            driver: request.first,
            start: request.second,
        }),
        _ => Call::Ask(party),
    }
}

// A call of any kind but recover, with any words.
fn raw(b: &mut Book) -> Call {
    match b.random.below(8) {
        0 => bad_format(b),
        kind => any_call(b, kind),
    }
}

// A membership of a group that has some, if one of a few is such.
fn some_membership(s: &Side, b: &mut Book) -> Option<Membership> {
    for _ in 0..6 {
        let d = some_descriptor(s, b);
        if let Some(entry) = s.first_member(d) {
            return Some(Membership {
                key: s.key_of(d),
                entry,
            });
        }
    }
    None
}

// A key, often that of the change before, so that several sessions change one group; but in a rising row.
fn change_key(s: &Side, b: &mut Book) -> u32 {
    if let Some(last) = b.changed
        && b.round.phase != Phase::Rise
        && b.random.chance(1, 2)
    {
        return last;
    }
    let k = some_key(s, b);
    b.changed = if k == 0 { None } else { Some(k) };
    k
}

// An insert or a remove of some entry at some key.
fn some_change(s: &Side, b: &mut Book, code: Code) -> Request {
    let entry = some_entry(b);
    Request::new(code, entry, change_key(s, b), 0)
}

// A remove: mostly of an entry out of a group in which it is.
fn remove(s: &Side, b: &mut Book) -> Request {
    if b.random.chance(3, 4)
        && let Some(m) = some_membership(s, b)
    {
        return Request::new(Code::Remove, m.entry, m.key, 0);
    }
    some_change(s, b, Code::Remove)
}

// How far a range goes beyond its first key at most, where k is one of 3 to 7; or else it goes to any key.
fn reach(b: &Book, k: u32) -> Option<u32> {
    if k < 5 {
        return Some(12);
    }
    if k < 7 && b.round.size.keys != Keys::Small {
        Some(1000)
    } else {
        None
    }
}

// A range from a key on: of that key alone, of some more, or to some other key.
fn range_end(s: &Side, b: &mut Book, first: u32) -> u32 {
    let k = b.random.below(8);
    if k < 3 {
        return first;
    }
    match reach(b, k) {
        None => some_key(s, b),
        Some(n) => first.wrapping_add(b.random.below(n)),
    }
}

// A locate from one key to another, which is mostly not below it. The entry of a locate may be any word.
fn range(b: &mut Book, first: u32, second: u32) -> Request {
    if second < first && !b.random.chance(1, 10) {
        return Request::new(Code::Locate, b.random.word(), second, first);
    }
    Request::new(Code::Locate, b.random.word(), first, second)
}

fn locate(s: &Side, b: &mut Book) -> Request {
    let first = some_key(s, b);
    if b.round.phase == Phase::Rise {
        return Request::new(Code::Locate, 0, first, first);
    }
    let second = range_end(s, b, first);
    range(b, first, second)
}

fn write(b: &mut Book) -> Request {
    let entry = some_entry(b);
    Request::new(Code::Write, entry, any_word(b), 0)
}

fn some_request(s: &Side, b: &mut Book) -> Request {
    let k = b.random.below(32);
    match Shares::at(b.round.phase).code(k) {
        Code::Read => Request::new(Code::Read, some_entry(b), 0, 0),
        Code::Write => write(b),
        Code::Insert => some_change(s, b, Code::Insert),
        Code::Remove => remove(s, b),
        Code::Locate | Code::Tidy => locate(s, b),
    }
}

// Does a session that has finished so many requests commit?
fn commits(b: &mut Book, n: usize) -> bool {
    if 190 < n {
        return true;
    }
    0 < n && b.random.chance(Shares::at(b.round.phase).commits, 32)
}

// A session that is ready commits, or is asked first.
fn ready(b: &mut Book, p: u32) -> Call {
    if b.random.chance(1, 2) {
        Call::Ask(p)
    } else {
        Call::Commit(p)
    }
}

// One of so many new requests of sessions is the first of a day.
const DAYS: u32 = 8;

// A begun session with no request in hand.
fn idle(s: &Side, b: &mut Book, p: u32) -> Call {
    let n = b.round.party(p).log.len();
    if commits(b, n) {
        ready(b, p)
    } else if b.random.chance(1, 80) {
        Call::Ask(p)
    } else if b.random.chance(1, 30) {
        Call::Abort(p)
    } else if b.random.chance(1, DAYS) {
        begin_day(s, b, p)
    } else {
        Call::Put(p, some_request(s, b))
    }
}

// A session with a request in hand: one that waits may give up.
fn busy(b: &mut Book, p: u32) -> Call {
    let waited = b.round.party(p).waited;
    if waited && b.random.chance(1, 30) {
        Call::Abort(p)
    } else if b.random.chance(1, 200) {
        Call::Abort(p)
    } else if b.random.chance(1, 200) {
        Call::Ask(p)
    } else {
        step(b, p)
    }
}

// Four words as a request.
fn four_words(b: &mut Book) -> Request {
    Request {
        code: any_word(b),
        entry: any_word(b),
        first: any_word(b),
        second: any_word(b),
    }
}

// An asked session: it is committed or aborted, or makes a call that is refused.
fn asked(s: &Side, b: &mut Book, p: u32) -> Call {
    match b.random.below(32) {
        0 | 1 => Call::Abort(p),
        2 | 3 => Call::Ask(p),
        4 => Call::Begin(p),
        5 | 6 => step(b, p),
        7 | 8 => begin_day(s, b, p),
        9 => Call::Put(p, four_words(b)),
        10 | 11 | 12 | 13 => Call::Put(p, some_request(s, b)),
        _ => Call::Commit(p),
    }
}

// A tidy of a stored key. Its entry may be any word.
fn tidy_stored(s: &Side, b: &mut Book) -> Request {
    let key = s.key_of(some_descriptor(s, b));
    Request::new(Code::Tidy, b.random.word(), key.wrapping_sub(1), 0)
}

fn tidy(s: &Side, b: &mut Book) -> Request {
    match b.random.below(24) {
        0 => Request::new(Code::Tidy, 0, any_word(b), 0),
        1 => Request::new(Code::Tidy, 0, 0, 0),
        _ => tidy_stored(s, b),
    }
}

// Any session.
fn any_session(b: &mut Book) -> u32 {
    b.random.below(b.round.size.sessions).wrapping_add(1)
}

// A session, less often one that is asked, so that it stays so for a while.
fn mostly_open(a: &Model, b: &mut Book) -> u32 {
    let p = any_session(b);
    if a.asked(p) && b.random.chance(7, 8) {
        any_session(b)
    } else {
        p
    }
}

// A session, less often one whose last step waited.
fn some_session(a: &Model, b: &mut Book) -> u32 {
    let p = mostly_open(a, b);
    if b.round.party(p).waited {
        mostly_open(a, b)
    } else {
        p
    }
}

// A call of a session, as it stands.
fn of_session(s: &Side, a: &Model, b: &mut Book) -> Call {
    let p = some_session(a, b);
    if a.asked(p) {
        asked(s, b, p)
    } else if goes_on(a, b, p) {
        go_on(b, p)
    } else if a.in_hand(p) {
        busy(b, p)
    } else if a.begun(p) {
        idle(s, b, p)
    } else {
        Call::Begin(p)
    }
}

fn housekeeper(s: &Side, a: &Model, b: &mut Book) -> Call {
    if a.in_hand(0) {
        step(b, 0)
    } else {
        Call::Put(0, tidy(s, b))
    }
}

// Of how many calls one is a recover: in every second round of a kind far fewer, so that sessions and waits last longer.
fn recover_every(b: &Book) -> u32 {
    let every = Shares::at(b.round.phase).recovers;
    if b.round.number / KINDS % 2 == 0 {
        every
    } else {
        every.wrapping_mul(8)
    }
}

fn choose(s: &Side, a: &Model, b: &mut Book) -> Call {
    if b.random.chance(1, 24) {
        return raw(b);
    }
    let every = recover_every(b);
    if b.random.chance(1, every) {
        return Call::Recover;
    }
    if b.random.chance(Shares::at(b.round.phase).housekeeper, 32) {
        housekeeper(s, a, b)
    } else {
        of_session(s, a, b)
    }
}

// The call of this turn of the round.
pub fn next(s: &Side, a: &Model, b: &mut Book, turn: u32) -> Call {
    b.round.phase = phase(&b.round.size, turn);
    b.round.spare = Request::default();
    choose(s, a, b)
}

// Session i of a sequence of all, which x picks.
pub fn in_sequence(x: u32, i: u32) -> u32 {
    1 + (x >> 8).wrapping_add(i ^ (x % SESSIONS)) % SESSIONS
}
