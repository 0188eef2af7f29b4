// Starting: the first step of a request.
//
// A read takes the entry's share lock and answers its value; a write logs the old value in an undo record, and takes the exclusive
// lock; an insert or remove takes the exclusive lock, and its descent begins; a tidy that chose nothing is done. A match on the code
// picks which. It promises that the words a step leaves, its party's session record and the answer EQUAL a definition of
// specs/Starting. specs/First says that this is the machine's step, where the words hold a layout of a sound state (rows: specs/Rows
// and specs/Writing). It rests on words for where words lie, on locks for who is in the way and on long_locks for what that means, on
// undo_log for undo records, on endings and outcomes for session records and answers, on layout for what the words mean.
#![tactic(auto)]

ghost use Rattle.std.specs.Prelude.{◌≡◌, ◌<◌};
ghost use Rattle.words.specs.Entries.{entry_word, put_entry_word};
ghost use Rattle.words.specs.Fields.{field_number};
ghost use Rattle.locks.specs.Holders.{held_by};
ghost use Rattle.outcomes.specs.Said.{moved};
ghost use Rattle.starting.specs.Starting.{entry_blocker, read_done_of, read_step, write_done_of, write_free, write_step_of, to_first, entry_done_of, entry_step, none_chosen, first_step_of, EntryReady, LogReady, WriteReady, FirstReady};

use outcomes::{Answer, Moved, Refusal};
use sessions::{Session, Stage};
use words::Field;

// ---- what every first step shares

// The lowest session in the way of p's lock on an entry, 0 if none is: asked is 0 for share, 1 for exclusive.
fn entry_blocker(store: &[u32], e: usize, asked: usize, p: u32) -> u32
    requires { EntryReady store.now p e × (asked < 2) }
    ensures { result ≡ entry_blocker store.now e asked p }
{
    let weak = words::entry_word(store, e, Field::Share);
    let strong = words::entry_word(store, e, Field::Exclusive);
    locks::lowest_blocker(0, asked, p, weak, strong)
}

// Session p comes to hold the entry, in the mode of that word of the entry.
fn hold_entry(store: &mut [u32], e: usize, field: Field, p: u32)
    requires { EntryReady store.old p e }
    ensures { store.new ≡ put_entry_word store.old e (field_number field) (held_by p (entry_word store.old e (field_number field))) }
{
    let word = words::entry_word(store, e, field);
    words::set_entry_word(store, e, field, locks::with_session(word, p));
}

// The three steps that follow test alike who is in the way, and each is written out: it asks for its own mode, needs other records, and its clauses name
// the definition of its own row.

// ---- read

fn read_done(store: &mut [u32], p: u32, x: Session) -> Moved
    requires { EntryReady store.old p x.entry }
    ensures { (store.new ≡ (read_done_of store.old p x).words) × (result ≡ moved (read_done_of store.old p x)) }
{
    let e = x.entry as usize;
    let value = words::entry_word(store, e, Field::Value);
    hold_entry(store, e, Field::Share, p);
    Moved {
        answer: Answer::Done(value),
        session: endings::idle_session(x),
    }
}

pub fn read_step(store: &mut [u32], p: u32, x: Session) -> Moved
    requires { EntryReady store.old p x.entry }
    ensures { (store.new ≡ (read_step store.old p x).words) × (result ≡ moved (read_step store.old p x)) }
{
    let e = x.entry as usize;
    let q = entry_blocker(store, e, 0, p);
    if q != 0 {
        return Moved {
            answer: Answer::Wait(q),
            session: x,
        };
    }
    read_done(store, p, x)
}

// ---- write

fn write_done(store: &mut [u32], m: usize, p: u32, x: Session) -> Moved
    requires { LogReady store.old m p x.entry }
    ensures { (store.new ≡ (write_done_of store.old m p x).words) × (result ≡ moved (write_done_of store.old m p x)) }
{
    let e = x.entry as usize;
    let old = words::entry_word(store, e, Field::Value);
    let i = undo_log::log_value(store, m, x.entry, old, x.undo);
    words::set_entry_word(store, e, Field::Value, x.first);
    hold_entry(store, e, Field::Exclusive, p);
    Moved {
        answer: Answer::Done(0),
        session: endings::logged_session(x, i as u32),
    }
}

fn write_free(store: &mut [u32], m: usize, p: u32, x: Session) -> Moved
    requires { WriteReady store.old m p x.entry }
    ensures { (store.new ≡ (write_free store.old m p x).words) × (result ≡ moved (write_free store.old m p x)) }
{
    if words::free(store) == 0 {
        return Moved {
            answer: Answer::Refused(Refusal::Full as u32, 0),
            session: endings::idle_session(x),
        };
    }
    write_done(store, m, p, x)
}

pub fn write_step(store: &mut [u32], m: usize, p: u32, x: Session) -> Moved
    requires { WriteReady store.old m p x.entry }
    ensures { (store.new ≡ (write_step_of store.old m p x).words) × (result ≡ moved (write_step_of store.old m p x)) }
{
    let e = x.entry as usize;
    let q = entry_blocker(store, e, 1, p);
    if q != 0 {
        return Moved {
            answer: Answer::Wait(q),
            session: x,
        };
    }
    write_free(store, m, p, x)
}

// ---- insert, remove

// The descent to first begins.
fn first_session(mut x: Session) -> Session
    ensures { result ≡ to_first x }
{
    x.stage = Stage::EnterRoot as u32;
    x.target = x.first;
    x
}

fn entry_done(store: &mut [u32], p: u32, x: Session) -> Moved
    requires { EntryReady store.old p x.entry }
    ensures { (store.new ≡ (entry_done_of store.old p x).words) × (result ≡ moved (entry_done_of store.old p x)) }
{
    let e = x.entry as usize;
    hold_entry(store, e, Field::Exclusive, p);
    Moved {
        answer: Answer::More,
        session: first_session(x),
    }
}

pub fn entry_step(store: &mut [u32], p: u32, x: Session) -> Moved
    requires { EntryReady store.old p x.entry }
    ensures { (store.new ≡ (entry_step store.old p x).words) × (result ≡ moved (entry_step store.old p x)) }
{
    let e = x.entry as usize;
    let q = entry_blocker(store, e, 1, p);
    if q != 0 {
        return Moved {
            answer: Answer::Wait(q),
            session: x,
        };
    }
    entry_done(store, p, x)
}

// ---- a tidy that chose nothing

pub fn tidied_none(x: Session) -> Moved
    ensures { result ≡ none_chosen x }
{
    Moved {
        answer: Answer::Tidied(0, 0),
        session: endings::idle_session(x),
    }
}

// ---- by code: of those from 5 on only a tidy's, 6, has a first step

pub fn first_step(store: &mut [u32], m: usize, p: u32, x: Session) -> Moved
    requires { FirstReady store.old m p x }
    ensures { (store.new ≡ (first_step_of store.old m p x).words) × (result ≡ moved (first_step_of store.old m p x)) }
{
    let code = x.code;
    match code {
        1 => read_step(store, p, x),
        2 => write_step(store, m, p, x),
        3 | 4 => entry_step(store, p, x),
        0 | 5..=4294967295 => tidied_none(x),
    }
}
