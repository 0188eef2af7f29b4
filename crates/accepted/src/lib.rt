// Accepted: what begin, put, commit, abort, ask, recover and format do once nothing refuses them, on the words of a store and on the session table by value.
//
// The caller has tested that store and table are sound (not for format) and that no check of the call's list refuses. Each then does its row, and promises
// what the crate promises says of a call on sound words (Serves): the answer is the machine's, and store and table mean the machine's next state; of
// format, that it leaves a fresh store (Formats). A step stands in the crate stepping. It rests on refusals for a party's record, on leaving, aborting and
// recovering for the rows, on endings for session records by value and for the fresh store, on seniority for the order of begins.
#![tactic(auto)]

ghost use Rattle.std.specs.Prelude.{◌≡◌, [], length};
ghost use Rattle.serial.specs.Calls as C;
ghost use Rattle.outcomes.specs.Said.{said};
ghost use Rattle.machine.specs.Calls.{format_checks};
ghost use Rattle.meaning.specs.Reading.{M-of};
ghost use Rattle.meaning.specs.Sound.{Sound};
ghost use Rattle.leaving.specs.FreshRow.{fresh_table};
ghost use Rattle.refusals.specs.Refusing.{first_of, begin_list, put_list, commit_list, abort_list, ask_list};
ghost use Rattle.promises.specs.Relations.{Formats};
ghost use Rattle.promises.specs.Ways.{Serves};

use outcomes::{Answer, Served};
use sessions::{PARTIES, Session};

// A session begins: those that are begun are renumbered, and its number is behind theirs.
pub fn begin(store: &[u32], t: [Session; PARTIES], p: u32) -> Served
    requires { Sound store.now t × (first_of (begin_list t p) ≡ 0) }
    ensures { Serves (C.begin p) store.now t (said result.answer) [] store.now result.table }
{
    let ranked = seniority::renumbered(t);
    let count = seniority::begun_count(t);
    let x = refusals::seat(t, p);
    let y = endings::begun_session(x, count + 1);
    let after = refusals::settle(ranked, p, y); // begun
    Served {
        table: after,
        answer: Answer::Ok,
    }
}

// A party's request is in hand.
pub fn put(
    store: &[u32],
    t: [Session; PARTIES],
    p: u32,
    code: u32,
    entry: u32,
    first: u32,
    second: u32,
) -> Served
    requires { Sound store.now t × (first_of (put_list (M-of store.now) t p code entry first second) ≡ 0) }
    ensures { Serves (C.put p code entry first second) store.now t (said result.answer) [] store.now result.table }
{
    let m = words::entries(store) as usize;
    let r = words::records(store) as usize;
    let x = refusals::seat(t, p);
    let y = leaving::put_request(store, m, r, x, code, entry, first, second);
    let after = refusals::settle(t, p, y);
    Served {
        table: after,
        answer: Answer::Ok,
    }
}

// A session ends and keeps what it did.
pub fn commit(store: &mut [u32], t: [Session; PARTIES], p: u32) -> Served
    requires { Sound store.old t × (first_of (commit_list t p) ≡ 0) }
    ensures { Serves (C.commit p) store.old t (said result.answer) [] store.new result.table }
{
    let m = words::entries(store) as usize;
    let r = words::records(store) as usize;
    let x = refusals::seat(t, p);
    let undo = x.undo as usize;
    leaving::commit_words(store, m, r, p, undo);
    let y = endings::ended_session(x);
    let after = refusals::settle(t, p, y); // committed
    Served {
        table: after,
        answer: Answer::Ok,
    }
}

// A session ends and what it did is undone.
pub fn abort(store: &mut [u32], t: [Session; PARTIES], p: u32) -> Served
    requires { Sound store.old t × (first_of (abort_list t p) ≡ 0) }
    ensures { Serves (C.abort p) store.old t (said result.answer) [] store.new result.table }
{
    let m = words::entries(store) as usize;
    let r = words::records(store) as usize;
    let x = refusals::seat(t, p);
    aborting::abort_words(store, m, r, p, x);
    let y = endings::ended_session(x);
    let after = refusals::settle(t, p, y);
    Served {
        table: after,
        answer: Answer::Ok,
    }
}

// A session is asked: only commit and abort remain to it.
pub fn ask(store: &[u32], t: [Session; PARTIES], p: u32) -> Served
    requires { Sound store.now t × (first_of (ask_list t p) ≡ 0) }
    ensures { Serves (C.ask p) store.now t (said result.answer) [] store.now result.table }
{
    let x = refusals::seat(t, p);
    let y = endings::asked_session(x);
    let after = refusals::settle(t, p, y); // asked
    Served {
        table: after,
        answer: Answer::Ok,
    }
}

// Housekeeping ends, and every begun session that is not asked aborts.
pub fn recover(store: &mut [u32], t: [Session; PARTIES]) -> Served
    requires { Sound store.old t }
    ensures { Serves C.recover store.old t (said result.answer) [] store.new result.table }
{
    let m = words::entries(store) as usize;
    let r = words::records(store) as usize;
    let after = recovering::recover_words(store, m, r, t);
    Served {
        table: after, // recovered
        answer: Answer::Ok,
    }
}

// No session begun.
fn fresh_table() -> [Session; PARTIES]
    ensures { result ≡ fresh_table }
{
    [Session::default(); PARTIES]
}

// An empty store with m entries, and a table with no session begun.
pub fn format(store: &mut [u32], t: [Session; PARTIES], m: u32) -> Served
    requires { first_of (format_checks m (length store.old)) ≡ 0 }
    ensures { Formats m store.old t (said result.answer) store.new result.table }
{
    let entries = m as usize;
    let r = words::records_for(entries, store.len());
    endings::fresh_store(store, entries, r);
    let after = fresh_table();
    Served {
        table: after, // cleared
        answer: Answer::Ok,
    }
}
