// Store: the eight calls over a lent store, a lent session table and, for step, a lent list; a run, a request and a batch, which are several calls at once; and
// a call of a card's day, whose bytes are lent too.
//
// Each refuses a table that is not of 17 records (refusal 1), and then changes nothing. Else it loads the records, as the test of soundness reads them all,
// and makes the call on them by value. Of the table that the call gives back put, step, commit, abort and ask store ONE record, their party's: the call
// leaves the others as they were (specs/OneRecord), and so do a run and a request (specs/Stints) and a day call (specs/Days). Format, begin, recover and a
// batch store all 17. Each promises what the call by value promises, over words, table and list at entry and at exit (specs/Lent, specs/Listed, specs/Batched, specs/Days);
// so any list of calls after an accepted format keeps demand 3 (specs/Turns, specs/Demand3, specs/Servings), has the holders that its calls were granted and
// the order of their begins (specs/Holding), its journal is accepted (specs/Journal), and every list of calls has a run. Nothing is asked of the caller. It
// rests on tables for the lent table, on calls for the calls by value, on seats for what is kept of them.
#![tactic(auto)]

ghost use Rattle.std.specs.Prelude.{◌≡◌, length};
ghost use Rattle.store.specs.Lent.{Formatted, Begun, Put, Stepped, Committed, Aborted, Asked, Recovered, OnTable, SteppedOnTable};
ghost use Rattle.store.specs.Listed.{RanBy, AskedBy, ListedOnTable};
ghost use Rattle.store.specs.Batched.{Batched, BatchedOnTable};
ghost use Rattle.store.specs.Days.{DayBy, DayOnTable};
ghost use Rattle.store.specs.OneRecord.{seated};
ghost use Rattle.sessions.specs.Sessions.{parties};

use outcomes::{Answer, DayAnswer, Made, Served};
use seats::Seat;
use sessions::{PARTIES, Session};

// The arguments of a put.
#[derive(Clone, Copy)]
pub struct PutArgs {
    pub party: u32,
    pub code: u32,
    pub entry: u32,
    pub first: u32,
    pub second: u32,
}

// Whose request goes on, and how many steps at most.
#[derive(Clone, Copy)]
pub struct Go {
    pub party: u32,
    pub most: u32,
}

// The arguments of a put, and how many steps at most.
#[derive(Clone, Copy)]
pub struct Wish {
    pub party: u32,
    pub code: u32,
    pub entry: u32,
    pub first: u32,
    pub second: u32,
    pub most: u32,
}

// The arguments of a day call beside its bytes: the card's driver, the minute that the day starts at, the entry that its first stretch gets, and the place
// that the call before returned, 0 for the first.
#[derive(Clone, Copy)]
pub struct DayAsk {
    pub party: u32,
    pub driver: u32,
    pub start: u32,
    pub entry: u32,
    pub place: u32,
}

// ---- a call by value whose whole table is kept

fn begin_by_value(store: &mut [u32], t: [Session; PARTIES], p: u32) -> Served
    ensures { Begun store.old t p result.answer store.new result.table }
{
    calls::begin(store, t, p)
}

// ---- the calls by value, of whose table only the record of the call's party is kept

fn put_by_value(store: &mut [u32], t: [Session; PARTIES], k: PutArgs) -> Seat<Answer>
    ensures { Put store.old t k result.answer store.new (seated t result) }
{
    let served = calls::put(store, t, k.party, k.code, k.entry, k.first, k.second);
    seats::seat_of(served.table, k.party, served.answer)
}

fn step_by_value(store: &mut [u32], list: &mut [u32], t: [Session; PARTIES], p: u32) -> Seat<Answer>
    ensures { Stepped store.old t list.old p result.answer store.new (seated t result) list.new }
{
    let served = calls::step(store, list, t, p);
    seats::seat_of(served.table, p, served.answer)
}

fn commit_by_value(store: &mut [u32], t: [Session; PARTIES], p: u32) -> Seat<Answer>
    ensures { Committed store.old t p result.answer store.new (seated t result) }
{
    let served = calls::commit(store, t, p);
    seats::seat_of(served.table, p, served.answer)
}

fn abort_by_value(store: &mut [u32], t: [Session; PARTIES], p: u32) -> Seat<Answer>
    ensures { Aborted store.old t p result.answer store.new (seated t result) }
{
    let served = calls::abort(store, t, p);
    seats::seat_of(served.table, p, served.answer)
}

fn ask_by_value(store: &mut [u32], t: [Session; PARTIES], p: u32) -> Seat<Answer>
    ensures { Asked store.old t p result.answer store.new (seated t result) }
{
    let served = calls::ask(store, t, p);
    seats::seat_of(served.table, p, served.answer)
}

fn run_by_value(store: &mut [u32], list: &mut [u32], t: [Session; PARTIES], k: Go) -> Seat<Made>
    ensures { RanBy store.old t list.old k result.answer.answer result.answer.steps store.new (seated t result) list.new }
{
    let ran = calls::run(store, list, t, k.party, k.most);
    let made = Made {
        answer: ran.answer,
        steps: ran.steps,
    };
    seats::seat_of(ran.table, k.party, made)
}

fn request_by_value(
    store: &mut [u32],
    list: &mut [u32],
    t: [Session; PARTIES],
    k: Wish,
) -> Seat<Made>
    ensures { AskedBy store.old t list.old k result.answer.answer result.answer.steps store.new (seated t result) list.new }
{
    let ran = calls::request(
        store, list, t, k.party, k.code, k.entry, k.first, k.second, k.most,
    );
    let made = Made {
        answer: ran.answer,
        steps: ran.steps,
    };
    seats::seat_of(ran.table, k.party, made)
}

fn day_by_value(
    store: &mut [u32],
    bytes: &[u8],
    t: [Session; PARTIES],
    k: DayAsk,
) -> Seat<DayAnswer>
    ensures { DayBy store.old t bytes.now k result.answer store.new (seated t result) }
{
    let served = calls::day(
        store, t, k.party, bytes, k.driver, k.start, k.entry, k.place,
    );
    seats::seat_of(served.table, k.party, served.answer)
}

// ---- what is kept

// The one record that is kept of a call goes into the lent table.
fn kept<A>(table: &mut [Session], seat: Seat<A>) -> A
    requires { length table.old ≡ parties }
    ensures { (table.new ≡ seated table.old seat) × (result ≡ seat.answer) }
{
    tables::store_session(table, seat.party, seat.session);
    seat.answer
}

// ---- the eight calls, over a lent table
//
// No function that takes the call as a closure: what a closure does to what it captures is not known after its call, so store, list and answers would be
// handed on to it, by one such function for each set of them. Two lines in each call, the load and what is kept, are plainer.

// An empty store with m entries, and a table with no session begun.
pub fn format(store: &mut [u32], table: &mut [Session], m: u32) -> Answer
    ensures { OnTable Formatted store.old table.old m result store.new table.new }
{
    let Some(t) = tables::load(table) else {
        return seats::wrong_table();
    };
    let served = calls::format(store, t, m);
    tables::save_all(table, served.table);
    served.answer
}

// A session begins.
pub fn begin(store: &mut [u32], table: &mut [Session], p: u32) -> Answer
    ensures { OnTable Begun store.old table.old p result store.new table.new }
{
    let Some(t) = tables::load(table) else {
        return seats::wrong_table();
    };
    let served = begin_by_value(store, t, p);
    tables::save_all(table, served.table);
    served.answer
}

// A party's request: it is in hand until a step answers done.
pub fn put(store: &mut [u32], table: &mut [Session], k: PutArgs) -> Answer
    ensures { OnTable Put store.old table.old k result store.new table.new }
{
    let Some(t) = tables::load(table) else {
        return seats::wrong_table();
    };
    kept(table, put_by_value(store, t, k))
}

// One step of the request that party p has in hand; a locate's last step writes the list.
pub fn step(store: &mut [u32], table: &mut [Session], list: &mut [u32], p: u32) -> Answer
    ensures { SteppedOnTable store.old table.old list.old p result store.new table.new list.new }
{
    let Some(t) = tables::load(table) else {
        return seats::wrong_table();
    };
    kept(table, step_by_value(store, list, t, p))
}

// A session ends and keeps what it did.
pub fn commit(store: &mut [u32], table: &mut [Session], p: u32) -> Answer
    ensures { OnTable Committed store.old table.old p result store.new table.new }
{
    let Some(t) = tables::load(table) else {
        return seats::wrong_table();
    };
    kept(table, commit_by_value(store, t, p))
}

// A session ends and what it did is undone.
pub fn abort(store: &mut [u32], table: &mut [Session], p: u32) -> Answer
    ensures { OnTable Aborted store.old table.old p result store.new table.new }
{
    let Some(t) = tables::load(table) else {
        return seats::wrong_table();
    };
    kept(table, abort_by_value(store, t, p))
}

// A session is asked: only commit and abort remain to it.
pub fn ask(store: &mut [u32], table: &mut [Session], p: u32) -> Answer
    ensures { OnTable Asked store.old table.old p result store.new table.new }
{
    let Some(t) = tables::load(table) else {
        return seats::wrong_table();
    };
    kept(table, ask_by_value(store, t, p))
}

// Housekeeping ends, and every begun session that is not asked aborts.
pub fn recover(store: &mut [u32], table: &mut [Session]) -> Answer
    ensures { OnTable Recovered store.old table.old tt result store.new table.new }
{
    let Some(t) = tables::load(table) else {
        return seats::wrong_table();
    };
    let served = calls::recover(store, t);
    tables::save_all(table, served.table);
    served.answer
}

// ---- several calls at once

// Steps of the request that party k.party has in hand until one is not answered more: at least one, at most k.most. A locate's last step writes the list.
pub fn run(store: &mut [u32], table: &mut [Session], list: &mut [u32], k: Go) -> Made
    ensures { ListedOnTable RanBy store.old table.old list.old k result.answer result.steps store.new table.new list.new }
{
    let Some(t) = tables::load(table) else {
        return seats::wrong_table_made();
    };
    kept(table, run_by_value(store, list, t, k))
}

// A party's request, and if it is accepted a run.
pub fn request(store: &mut [u32], table: &mut [Session], list: &mut [u32], k: Wish) -> Made
    ensures { ListedOnTable AskedBy store.old table.old list.old k result.answer result.steps store.new table.new list.new }
{
    let Some(t) = tables::load(table) else {
        return seats::wrong_table_made();
    };
    kept(table, request_by_value(store, list, t, k))
}

// Asks, made one after another after one test; their answers go into the lent answers.
pub fn batch(
    store: &mut [u32],
    table: &mut [Session],
    list: &mut [u32],
    asks: &[u32],
    answers: &mut [u64],
) -> Answer
    ensures { BatchedOnTable Batched asks.now store.old table.old list.old answers.old result answers.new list.new store.new table.new }
{
    let Some(t) = tables::load(table) else {
        return seats::wrong_table();
    };
    let served = calls::batch(store, list, t, asks, answers);
    tables::save_all(table, served.table);
    served.answer
}

// ---- a card's day

// One put or step of the requests that the day's bytes say, and the place that the next call is to be handed.
pub fn day(store: &mut [u32], table: &mut [Session], bytes: &[u8], k: DayAsk) -> DayAnswer
    ensures { DayOnTable DayBy store.old table.old bytes.now k result store.new table.new }
{
    let Some(t) = tables::load(table) else {
        return seats::wrong_table_day();
    };
    kept(table, day_by_value(store, bytes, t, k))
}
