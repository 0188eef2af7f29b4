// Calls: the eight calls, a run, a request, a batch and a day call, on the words of a store and on the session table by value.
//
// Each tests store and table first (not format), once, and then serves. The eight promise one relation of the crate promises: refused 2 exactly if store or table
// is not sound, and then nothing is changed; else the answer is the machine's, and store and table mean the machine's next state (Calls); of format, that an
// accepted one leaves a fresh store (Formats). A run, a request and a batch promise to be lists of ordinary calls (promises, specs/Runs; batches, specs/Batches),
// a day call to be one put or step with its answer renamed (day_calls, specs/Calling). Demands 1 to 3 over these promises stand there too. It rests on soundness
// for the test, on refusals and accepted for format, on accepted for recover, on serving, running, batches and day_calls for the rest.
#![tactic(auto)]

ghost use Rattle.std.specs.Prelude.{[]};
ghost use Rattle.serial.specs.Calls as C;
ghost use Rattle.outcomes.specs.Said.{said};
ghost use Rattle.promises.specs.Relations.{Calls, Formats};
ghost use Rattle.promises.specs.Runs.{Runs, Requests};
ghost use Rattle.batches.specs.Batches.{Batches};
ghost use Rattle.day_calls.specs.Calling.{handed, Days};

use outcomes::{DayServed, Ran, Refusal, Served};
use sessions::{PARTIES, Session};

// The test stands in each call, and not in one function that takes what is served as a closure: the calls are lent a store, a store and a list, or these
// and answers, and would each pass on to the closure what it may write, since what a closure does to what it captures is not known after its call. That
// takes more lines than the test.

// ---- begin

pub fn begin(store: &[u32], t: [Session; PARTIES], p: u32) -> Served
    ensures { Calls (C.begin p) store.now t (said result.answer) [] store.now result.table }
{
    if !soundness::is_sound(store, t) {
        return Served::refused(t, Refusal::Unsound);
    }
    serving::begin(store, t, p)
}

// ---- put

// No struct of the five arguments, here and in serving, accepted and batches: docs/PROOF.md names this function, so its parameters may not change.
pub fn put(
    store: &[u32],
    t: [Session; PARTIES],
    p: u32,
    code: u32,
    entry: u32,
    first: u32,
    second: u32,
) -> Served
    ensures { Calls (C.put p code entry first second) store.now t (said result.answer) [] store.now result.table }
{
    if !soundness::is_sound(store, t) {
        return Served::refused(t, Refusal::Unsound);
    }
    serving::put(store, t, p, code, entry, first, second)
}

// ---- step

pub fn step(store: &mut [u32], list: &mut [u32], t: [Session; PARTIES], p: u32) -> Served
    ensures { Calls (C.step p list.old) store.old t (said result.answer) list.new store.new result.table }
{
    if !soundness::is_sound(store, t) {
        return Served::refused(t, Refusal::Unsound);
    }
    serving::step(store, list, t, p)
}

// ---- commit

pub fn commit(store: &mut [u32], t: [Session; PARTIES], p: u32) -> Served
    ensures { Calls (C.commit p) store.old t (said result.answer) [] store.new result.table }
{
    if !soundness::is_sound(store, t) {
        return Served::refused(t, Refusal::Unsound);
    }
    serving::commit(store, t, p)
}

// ---- abort

pub fn abort(store: &mut [u32], t: [Session; PARTIES], p: u32) -> Served
    ensures { Calls (C.abort p) store.old t (said result.answer) [] store.new result.table }
{
    if !soundness::is_sound(store, t) {
        return Served::refused(t, Refusal::Unsound);
    }
    serving::abort(store, t, p)
}

// ---- ask

pub fn ask(store: &[u32], t: [Session; PARTIES], p: u32) -> Served
    ensures { Calls (C.ask p) store.now t (said result.answer) [] store.now result.table }
{
    if !soundness::is_sound(store, t) {
        return Served::refused(t, Refusal::Unsound);
    }
    serving::ask(store, t, p)
}

// ---- recover

pub fn recover(store: &mut [u32], t: [Session; PARTIES]) -> Served
    ensures { Calls C.recover store.old t (said result.answer) [] store.new result.table }
{
    if !soundness::is_sound(store, t) {
        return Served::refused(t, Refusal::Unsound);
    }
    accepted::recover(store, t)
}

// ---- format

pub fn format(store: &mut [u32], t: [Session; PARTIES], m: u32) -> Served
    ensures { Formats m store.old t (said result.answer) store.new result.table }
{
    match refusals::check_format(m, store.len()) {
        Ok(()) => accepted::format(store, t, m),
        Err(refusal) => Served::refused(t, refusal),
    }
}

// ---- several calls for one test

// Steps of party p until one is not answered more, at least one and at most so many.
pub fn run(store: &mut [u32], list: &mut [u32], t: [Session; PARTIES], p: u32, bound: u32) -> Ran
    ensures { Runs p bound store.old t list.old (said result.answer) result.steps list.new store.new result.table }
{
    if !soundness::is_sound(store, t) {
        return Ran::refused(t, Refusal::Unsound, 1);
    }
    running::run(store, list, t, p, bound)
}

// A put, and if it is accepted a run.
pub fn request(
    store: &mut [u32],
    list: &mut [u32],
    t: [Session; PARTIES],
    p: u32,
    code: u32,
    entry: u32,
    first: u32,
    second: u32,
    bound: u32,
) -> Ran
    ensures { Requests p code entry first second bound store.old t list.old (said result.answer) result.steps list.new store.new result.table }
{
    if !soundness::is_sound(store, t) {
        return Ran::refused(t, Refusal::Unsound, 0);
    }
    batches::request(store, list, t, p, code, entry, first, second, bound)
}

// A list of asks, one after another, and their answers.
pub fn batch(
    store: &mut [u32],
    list: &mut [u32],
    t: [Session; PARTIES],
    asks: &[u32],
    answers: &mut [u64],
) -> Served
    ensures { Batches asks.now store.old t list.old answers.old (said result.answer) answers.new list.new store.new result.table }
{
    if !soundness::is_sound(store, t) {
        return Served::refused(t, Refusal::Unsound);
    }
    if !batches::fits(asks.len(), answers.len()) {
        return Served::refused(t, Refusal::Answers);
    }
    batches::batch(store, list, t, asks, answers)
}

// ---- a card's day

// One call of a day: its bytes, the driver, the minute that it starts at, the first entry, and the place that the call before returned, 0 for the first.
pub fn day(
    store: &mut [u32],
    t: [Session; PARTIES],
    p: u32,
    bytes: &[u8],
    driver: u32,
    start: u32,
    entry: u32,
    place: u32,
) -> DayServed
    ensures { Days p (handed bytes.now driver start entry place) store.old t result.answer store.new result.table }
{
    if !soundness::is_sound(store, t) {
        return DayServed::refused(t, Refusal::Unsound);
    }
    day_calls::day(store, t, p, bytes, driver, start, entry, place)
}
