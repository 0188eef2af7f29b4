// Day calls: a card's day stored by one session, one ordinary put or step a call, once store and table are known to be sound.
//
// The day and the place that the call before returned are handed in and read again at each call, the bytes in one walk. First the refusals in their order;
// then the call is the put of the request that the place names or, with it in hand, a step. It promises to be that ordinary call with its answer renamed, or a
// refusal that changes nothing (specs/Calling). So lists of calls with day calls in them are lists of ordinary calls and keep demand 3 (Lists); a session that
// hands in each place that it was returned finishes exactly the day's requests (Threads); and the day can be written out again (Stored). It rests on card_days
// for the day, on refusals for what the table says, on accepted and stepping for the put and the step, on day_model for what the requests do.
#![tactic(auto)]

ghost use Rattle.std.specs.Prelude.{◌≡◌, ◌||◌, [], ◌*◌, ◌≤◌, ◌<◌, leb};
ghost use Rattle.serial.specs.Calls as C;
ghost use Rattle.outcomes.specs.Said.{said};
ghost use Rattle.outcomes.specs.Refused.{refused_by};
ghost use Rattle.meaning.specs.Sound.{Sound};
ghost use Rattle.refusals.specs.Refusing.{first_of, step_list};
ghost use Rattle.day_calls.specs.Calling.{renamed, other_in_hand, number_list, handed, Renames, DayServes};
ghost use Rattle.day_calls.specs.Accepting.{ReadsDay, ChecksDay, CanPut};

use card_days::DayRequest;
use outcomes::{Answer, DayAnswer, DayServed, Refusal};
use sessions::{PARTIES, Session, Stage};

// The highest driver, and the latest minute that a day may start at.
const DRIVERS: u32 = 4094;

const LATEST: u32 = 1047136;

// What a call reads of a proper day: how many stretches it has, and the request that the place names.
#[derive(Clone, Copy)]
struct Reading {
    count: usize,
    request: DayRequest,
}

// Refused 14 where the bytes are no proper day.
fn read_day(
    bytes: &[u8],
    driver: u32,
    start: u32,
    entry: u32,
    place: u32,
) -> Result<Reading, Refusal>
    ensures { ReadsDay (handed bytes.now driver start entry place) result }
{
    let s = card_days::survey(bytes, (place / 2) as usize);
    if !s.is_proper {
        return Err(Refusal::Day);
    }
    Ok(Reading {
        count: s.count,
        request: card_days::request_from(s.stretch, driver, start, entry, place),
    })
}

// ---- answers

// A request of the day is done, the one at place j of n stretches: more until the last.
fn done_answer(n: u32, j: u32) -> DayAnswer
    requires { (n ≤ 1440) × (j < 2 * n) }
    ensures { result ≡ renamed n j (C.done []) }
{
    let next = j + 1;
    if next < 2 * n {
        return DayAnswer::More(next);
    }
    DayAnswer::Done(n, next)
}

fn rename(n: u32, j: u32, a: Answer) -> DayAnswer
    requires { (n ≤ 1440) × (j < 2 * n) }
    ensures { result ≡ renamed n j (said a) }
{
    match a {
        Answer::Ok => DayAnswer::Ok(j),
        Answer::More => DayAnswer::More(j),
        Answer::Wait(q) => DayAnswer::Wait(q, j),
        Answer::Done(_) => done_answer(n, j),
        Answer::Tidied(_, _) => done_answer(n, j),
        Answer::Refused(i, k) => DayAnswer::Refused(i, k),
    }
}

// ---- refusals

// Another request is in hand than r.
fn other_in_hand(x: Session, r: DayRequest) -> bool
    ensures { result ≡ other_in_hand x r }
{
    let entry = x.entry as u64;
    let first = x.first as u64;
    if x.stage == Stage::Idle as u32 {
        return false;
    }
    if x.code != r.code {
        return true;
    }
    if entry != r.entry {
        return true;
    }
    if first != r.first {
        return true;
    }
    false
}

// 14 of a proper day: the place lies past it or names another request than the one in hand.
fn is_bad(x: Session, d: Reading, place: u32) -> bool
    ensures { result ≡ (leb (2 * d.count) place || other_in_hand x d.request) }
{
    d.count <= (place / 2) as usize || other_in_hand(x, d.request)
}

// 8 and 9, of n stretches and m entries.
fn check_numbers(m: u32, n: usize, driver: u32, start: u32, entry: u32) -> Result<(), Refusal>
    requires { n ≤ 1440 }
    ensures { refused_by result ≡ first_of (number_list m n driver start entry) }
{
    if entry == 0 {
        return Err(Refusal::Entry);
    }
    if m as u64 + 1 < entry as u64 + n as u64 {
        return Err(Refusal::Entry);
    }
    if driver == 0 {
        return Err(Refusal::Key);
    }
    if DRIVERS < driver {
        return Err(Refusal::Key);
    }
    if LATEST < start {
        return Err(Refusal::Key);
    }
    Ok(())
}

// What a day call is refused for, in order; else what it reads of its bytes.
fn check_day(
    m: u32,
    t: [Session; PARTIES],
    p: u32,
    bytes: &[u8],
    driver: u32,
    start: u32,
    entry: u32,
    place: u32,
) -> Result<Reading, Refusal>
    ensures { ChecksDay m t p (handed bytes.now driver start entry place) result }
{
    refusals::check_party(t, p)?;
    if p == 0 {
        return Err(Refusal::Code);
    }
    if bytes.len() % 2 == 1 {
        return Err(Refusal::Odd);
    }
    let d = read_day(bytes, driver, start, entry, place)?;
    let x = refusals::seat(t, p);
    if is_bad(x, d, place) {
        return Err(Refusal::Day);
    }
    check_numbers(m, d.count, driver, start, entry)?;
    Ok(d)
}

// ---- the put and the step

// The put of the request that the place names; n stretches.
fn day_put(
    store: &[u32],
    t: [Session; PARTIES],
    p: u32,
    n: usize,
    r: DayRequest,
    place: u32,
) -> DayServed
    requires { CanPut store.now t p n r place }
    ensures { Renames (C.put p r.code r.entry r.first 0) n place store.now t result.answer store.now result.table }
{
    let code = r.code;
    let e = r.entry as u32;
    let f = r.first as u32;
    let z = accepted::put(store, t, p, code, e, f, 0);
    let table = z.table;
    DayServed {
        table,
        answer: rename(n as u32, place, z.answer),
    }
}

fn day_step(store: &mut [u32], t: [Session; PARTIES], p: u32, n: usize, place: u32) -> DayServed
    requires { Sound store.old t × (first_of (step_list t p) ≡ 0) × (n ≤ 1440) × (place < 2 * n) }
    ensures { Renames (C.step p []) n place store.old t result.answer store.new result.table }
{
    let mut list = [0u32; 0];
    let z = stepping::step(store, &mut list, t, p);
    let table = z.table;
    DayServed {
        table,
        answer: rename(n as u32, place, z.answer),
    }
}

// One call of a card's day: the bytes, the driver, the first minute of the day, the first entry, and the place that the call before returned, 0 for the first.
pub fn day(
    store: &mut [u32],
    t: [Session; PARTIES],
    p: u32,
    bytes: &[u8],
    driver: u32,
    start: u32,
    entry: u32,
    place: u32,
) -> DayServed
    requires { Sound store.old t }
    ensures { DayServes p (handed bytes.now driver start entry place) store.old t result.answer store.new result.table }
{
    let m = words::entries(store);
    let d = match check_day(m, t, p, bytes, driver, start, entry, place) {
        Ok(d) => d,
        Err(refusal) => return DayServed::refused(t, refusal),
    };
    if refusals::has_request(t, p) {
        return day_step(store, t, p, d.count, place);
    }
    day_put(store, t, p, d.count, d.request, place)
}
