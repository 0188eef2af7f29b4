// Serving: begin, put, step, commit, abort and ask once store and table are known to be sound, on the words of a store and on the session table by value.
//
// Each asks for the refusals in the order of the rules, then does its row. Each promises what the crate promises says of a call on sound words (Serves): the
// answer is the machine's, store and table mean the machine's next state, and they are sound again; so whoever makes several calls tests once. It rests on
// refusals for the numbers, on accepted and, for a step, stepping for what a call does that nothing refuses.
#![tactic(auto)]

ghost use Rattle.std.specs.Prelude.{[]};
ghost use Rattle.serial.specs.Calls as C;
ghost use Rattle.outcomes.specs.Said.{said};
ghost use Rattle.meaning.specs.Sound.{Sound};
ghost use Rattle.promises.specs.Ways.{Serves};

use outcomes::Served;
use sessions::{PARTIES, Session};

pub fn begin(store: &[u32], t: [Session; PARTIES], p: u32) -> Served
    requires { Sound store.now t }
    ensures { Serves (C.begin p) store.now t (said result.answer) [] store.now result.table }
{
    match refusals::check_begin(t, p) {
        Ok(()) => accepted::begin(store, t, p),
        Err(refusal) => Served::refused(t, refusal), // numbers as they were
    }
}

pub fn put(
    store: &[u32],
    t: [Session; PARTIES],
    p: u32,
    code: u32,
    entry: u32,
    first: u32,
    second: u32,
) -> Served
    requires { Sound store.now t }
    ensures { Serves (C.put p code entry first second) store.now t (said result.answer) [] store.now result.table }
{
    let m = words::entries(store);
    match refusals::check_put(m, t, p, code, entry, first, second) {
        Ok(()) => accepted::put(store, t, p, code, entry, first, second),
        Err(refusal) => Served::refused(t, refusal),
    }
}

pub fn step(store: &mut [u32], list: &mut [u32], t: [Session; PARTIES], p: u32) -> Served
    requires { Sound store.old t }
    ensures { Serves (C.step p list.old) store.old t (said result.answer) list.new store.new result.table }
{
    match refusals::check_step(t, p) {
        Ok(()) => stepping::step(store, list, t, p),
        Err(refusal) => Served::refused(t, refusal),
    }
}

pub fn commit(store: &mut [u32], t: [Session; PARTIES], p: u32) -> Served
    requires { Sound store.old t }
    ensures { Serves (C.commit p) store.old t (said result.answer) [] store.new result.table }
{
    match refusals::check_commit(t, p) {
        Ok(()) => accepted::commit(store, t, p),
        Err(refusal) => Served::refused(t, refusal),
    }
}

pub fn abort(store: &mut [u32], t: [Session; PARTIES], p: u32) -> Served
    requires { Sound store.old t }
    ensures { Serves (C.abort p) store.old t (said result.answer) [] store.new result.table }
{
    match refusals::check_abort(t, p) {
        Ok(()) => accepted::abort(store, t, p),
        Err(refusal) => Served::refused(t, refusal),
    }
}

pub fn ask(store: &[u32], t: [Session; PARTIES], p: u32) -> Served
    requires { Sound store.now t }
    ensures { Serves (C.ask p) store.now t (said result.answer) [] store.now result.table }
{
    match refusals::check_ask(t, p) {
        Ok(()) => accepted::ask(store, t, p),
        Err(refusal) => Served::refused(t, refusal),
    }
}
