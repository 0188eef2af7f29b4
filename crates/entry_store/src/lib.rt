// Entry store: the eight calls, a run, a request and a batch, a call of a card's day and the day written out again; and what is read without one, the lock
// count, the test of soundness, free records and holders; exported for C. include/entry_store.h declares and describes them.
//
// A store and a list cross as a pointer and how many words, a session table as a pointer and how many records, each of 15 words in the order of the
// fields, a day as a pointer and how many bytes. An answer crosses in one number, which loses nothing (crate packing). Each call promises what the store's
// call of its name promises, of the answer whose packing it returns (specs/Exported); so any list of calls from C, with the answers read off the numbers,
// keeps demand 3 and the order of begins (specs/Turns, specs/Servings), its journal is accepted (specs/Journal), and every list of the eight has such numbers
// (specs/Made). Nothing is asked of the caller but what C's types leave to it. It rests on store for the calls, on packing for the answers, on card_days for
// the day written out, on locks for the count, on tables and sound for the test, on looking for free records and holders.
#![tactic(auto)]

ghost use Rattle.std.specs.Prelude.{◌≡◌, length};
ghost use Rattle.locks.specs.Holders.{holders, word_bits};
ghost use Rattle.store.specs.Lent.{Formatted, Begun, Put, Committed, Aborted, Asked, Recovered};
ghost use Rattle.store.specs.Listed.{RanBy, AskedBy};
ghost use Rattle.store.specs.Batched.{Batched};
ghost use Rattle.store.specs.Days.{DayBy};
ghost use Rattle.entry_store.specs.Exported.{Told, Stepped, ToldMade, ToldBatch, ToldDay, WritesOut, Names, Looked};
ghost use Rattle.looking.specs.Told.{FreeTold, HoldersTold};

use outcomes::{Answer, Refusal};
use sessions::{PARTIES, Session};
use store::{DayAsk, Go, PutArgs, Wish};

// ---- the eight calls

// An empty store of so many entries, and a table with no session begun.
#[unsafe(no_mangle)]
pub extern "C" fn entry_store_format(store: &mut [u32], table: &mut [Session], entries: u32) -> u64
    ensures { Told Formatted store.old table.old entries result store.new table.new }
{
    let a = store::format(store, table, entries);
    packing::pack(a)
}

// A session begins.
#[unsafe(no_mangle)]
pub extern "C" fn entry_store_begin(store: &mut [u32], table: &mut [Session], party: u32) -> u64
    ensures { Told Begun store.old table.old party result store.new table.new }
{
    let a = store::begin(store, table, party);
    packing::pack(a)
}

// A party's request: it is in hand until a step answers done.
#[unsafe(no_mangle)]
pub extern "C" fn entry_store_put(
    store: &mut [u32],
    table: &mut [Session],
    party: u32,
    code: u32,
    entry: u32,
    first: u32,
    second: u32,
) -> u64
    ensures { Told Put store.old table.old (record { party = party; code = code; entry = entry; first = first; second = second }) result store.new table.new }
{
    let k = PutArgs {
        party,
        code,
        entry,
        first,
        second,
    };
    let a = store::put(store, table, k);
    packing::pack(a)
}

// One step of the request that the party has in hand; a locate's last step writes the list.
#[unsafe(no_mangle)]
pub extern "C" fn entry_store_step(
    store: &mut [u32],
    table: &mut [Session],
    list: &mut [u32],
    party: u32,
) -> u64
    ensures { Stepped store.old table.old list.old party result store.new table.new list.new }
{
    let a = store::step(store, table, list, party);
    packing::pack(a)
}

// A session ends and keeps what it did.
#[unsafe(no_mangle)]
pub extern "C" fn entry_store_commit(store: &mut [u32], table: &mut [Session], party: u32) -> u64
    ensures { Told Committed store.old table.old party result store.new table.new }
{
    let a = store::commit(store, table, party);
    packing::pack(a)
}

// A session ends and what it did is undone.
#[unsafe(no_mangle)]
pub extern "C" fn entry_store_abort(store: &mut [u32], table: &mut [Session], party: u32) -> u64
    ensures { Told Aborted store.old table.old party result store.new table.new }
{
    let a = store::abort(store, table, party);
    packing::pack(a)
}

// A session is asked: only commit and abort remain to it.
#[unsafe(no_mangle)]
pub extern "C" fn entry_store_ask(store: &mut [u32], table: &mut [Session], party: u32) -> u64
    ensures { Told Asked store.old table.old party result store.new table.new }
{
    let a = store::ask(store, table, party);
    packing::pack(a)
}

// Housekeeping ends, and every begun session that is not asked aborts.
#[unsafe(no_mangle)]
pub extern "C" fn entry_store_recover(store: &mut [u32], table: &mut [Session]) -> u64
    ensures { Told Recovered store.old table.old tt result store.new table.new }
{
    let a = store::recover(store, table);
    packing::pack(a)
}

// ---- several calls at once

// Steps of the request that the party has in hand until one is not answered more, at least one and at most so many; a locate's last step writes the list.
#[unsafe(no_mangle)]
pub extern "C" fn entry_store_run(
    store: &mut [u32],
    table: &mut [Session],
    list: &mut [u32],
    party: u32,
    most: u32,
) -> u64
    ensures { ToldMade RanBy store.old table.old list.old (record { party = party; most = most }) result store.new table.new list.new }
{
    let k = Go { party, most };
    let m = store::run(store, table, list, k);
    packing::pack_made(m)
}

// A party's request, and if it is accepted a run.
#[unsafe(no_mangle)]
pub extern "C" fn entry_store_request(
    store: &mut [u32],
    table: &mut [Session],
    list: &mut [u32],
    party: u32,
    code: u32,
    entry: u32,
    first: u32,
    second: u32,
    most: u32,
) -> u64
    ensures { ToldMade AskedBy store.old table.old list.old (record { party = party; code = code; entry = entry; first = first; second = second; most = most }) result store.new table.new list.new }
{
    let k = Wish {
        party,
        code,
        entry,
        first,
        second,
        most,
    };
    let m = store::request(store, table, list, k);
    packing::pack_made(m)
}

// Asks, made one after another after one test; their answers go into the lent answers.
#[unsafe(no_mangle)]
pub extern "C" fn entry_store_batch(
    store: &mut [u32],
    table: &mut [Session],
    list: &mut [u32],
    asks: &[u32],
    answers: &mut [u64],
) -> u64
    ensures { ToldBatch Batched asks.now store.old table.old list.old answers.old result answers.new list.new store.new table.new }
{
    let a = store::batch(store, table, list, asks, answers);
    packing::pack(a)
}

// ---- a card's day

// One put or step of the requests that the bytes of a card's day say. The place is 0 first, and then the one that the call before returned.
#[unsafe(no_mangle)]
pub extern "C" fn entry_store_day(
    store: &mut [u32],
    table: &mut [Session],
    bytes: &[u8],
    party: u32,
    driver: u32,
    day_start: u32,
    entry: u32,
    place: u32,
) -> u64
    ensures { ToldDay DayBy store.old table.old bytes.now (record { party = party; driver = driver; start = day_start; entry = entry; place = place }) result store.new table.new }
{
    let k = DayAsk {
        party,
        driver,
        start: day_start,
        entry,
        place,
    };
    let a = store::day(store, table, bytes, k);
    packing::pack_day(a)
}

// The bytes of a day, from the pairs of key and entry that a locate of it wrote, and the values that reads of these entries answered; done with how many
// bytes. Refused where they are no day's, or too many for the lent bytes.
#[unsafe(no_mangle)]
pub extern "C" fn entry_store_day_bytes(
    pairs: &[u32],
    values: &[u32],
    driver: u32,
    day_start: u32,
    bytes: &mut [u8],
) -> u64
    ensures { WritesOut pairs.now values.now driver day_start result bytes.old bytes.new }
{
    let written = card_days::write_day(driver, day_start, pairs, values, bytes);
    if written {
        let n = 2 * values.len();
        let done = Answer::Done(n as u32);
        return packing::pack(done);
    }
    let refused = Answer::from(Refusal::NoDay);
    packing::pack(refused)
}

// ---- reading

// The source's lock count: how many sessions a holders word has.
#[unsafe(no_mangle)]
pub extern "C" fn entry_store_lock_count(word: u32) -> u32
    ensures { result ≡ length (holders word_bits word) }
{
    locks::lock_count(word)
}

// The part that a table breaks which is not of 17 records; the others are those of the crate sound.
const TABLE: u32 = 11;

fn fault_by_value(store: &[u32], t: [Session; PARTIES]) -> u32
    ensures { Names store.now t result }
{
    match sound::first_fault(store, t) {
        Ok(_) => 0,
        Err(fault) => fault.number(),
    }
}

// The first part of soundness that store and table break, 0 for none: exactly if they are sound.
#[unsafe(no_mangle)]
pub extern "C" fn entry_store_fault(store: &[u32], table: &[Session]) -> u32
    ensures { Names store.now table.now result }
{
    if table.len() != PARTIES {
        return TABLE;
    }
    let t = tables::load_all(table);
    fault_by_value(store, t)
}

// Refused 1, packed: the answer to a table that is not of 17 records.
const WRONG_TABLE: u64 = 567352294899712;

fn free_by_value(store: &[u32], t: [Session; PARTIES]) -> u64
    ensures { Looked FreeTold store.now t result }
{
    let a = looking::free(store, t);
    packing::pack(a)
}

// How many records are free.
#[unsafe(no_mangle)]
pub extern "C" fn entry_store_free(store: &[u32], table: &[Session]) -> u64
    ensures { Looked FreeTold store.now table.now result }
{
    if table.len() != PARTIES {
        return WRONG_TABLE;
    }
    let t = tables::load_all(table);
    free_by_value(store, t)
}

fn holders_by_value(store: &[u32], t: [Session; PARTIES], key: u32) -> u64
    ensures { Looked (HoldersTold key) store.now t result }
{
    let a = looking::holders(store, t, key);
    packing::pack(a)
}

// Who holds a key, stored or not, in which mode.
#[unsafe(no_mangle)]
pub extern "C" fn entry_store_holders(store: &[u32], table: &[Session], key: u32) -> u64
    ensures { Looked (HoldersTold key) store.now table.now result }
{
    if table.len() != PARTIES {
        return WRONG_TABLE;
    }
    let t = tables::load_all(table);
    holders_by_value(store, t, key)
}
