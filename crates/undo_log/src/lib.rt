// Undo log: what requests and endings do to undo records (document 01: take-backs), on the words of a store.
//
// A change is logged in an undo record, undone, or kept and its record freed. It promises that the store each function leaves EQUALS a
// definition of specs/: Undoing (undo records and their chain), Freeing (a chain that is given back). What must hold before is one
// record, or one predicate along the chain. Nothing here says what a lock or a group means. It rests on words for where words lie, on
// undos (and kinds) for the records, on chain for the free chain, on members (with groups and locks) for members put in and taken out.
#![tactic(auto)]

ghost use Rattle.std.specs.Prelude.{◌≡◌};
ghost use Rattle.words.specs.Store.{HasRecord};
ghost use Rattle.words.specs.Header.{header_word, free_place};
ghost use Rattle.chain.specs.Walk.{Walk};
ghost use Rattle.undo_log.specs.Undoing.{Loggable, ValueBack, AddedBack, TakenBack, Undoing, Undoings, log_value, log_added, log_taken, value_back, added_back, taken_back, undo_one, undo_all};
ghost use Rattle.undo_log.specs.Freeing.{free_chain};

use kinds::Record;
use undos::Undo;
use words::Field;

// ---- logging a change

// The entry had this value: the first free record becomes the undo record, before head. Answers the record.
pub fn log_value(store: &mut [u32], m: usize, e: u32, v: u32, head: u32) -> usize
    requires { Loggable store.old m }
    ensures { (result ≡ header_word store.old free_place) × (store.new ≡ log_value store.old m e v head) }
{
    let a = chain::pop_free(store, m);
    Undo::value(head, e, v).write(store, m, a);
    a
}

// The entry came into descriptor d's group by membership i.
pub fn log_added(store: &mut [u32], m: usize, e: u32, i: u32, d: u32, head: u32) -> usize
    requires { Loggable store.old m }
    ensures { (result ≡ header_word store.old free_place) × (store.new ≡ log_added store.old m e i d head) }
{
    let a = chain::pop_free(store, m);
    Undo::added(head, e, i, d).write(store, m, a);
    a
}

// The entry went out of descriptor d's group: its former membership i is written over.
pub fn log_taken(store: &mut [u32], m: usize, i: usize, e: u32, d: u32, head: u32)
    requires { HasRecord store.old m i }
    ensures { store.new ≡ log_taken store.old m i e d head }
{
    Undo::taken(head, e, d).write(store, m, i);
}

// ---- undoing, one kind each

// The entry has its old value again, and the record is free.
fn undo_value(store: &mut [u32], m: usize, i: usize)
    requires { ValueBack store.old m i }
    ensures { store.new ≡ value_back store.old m i }
{
    let u = Undo::load(store, m, i);
    let e = u.entry as usize;
    words::set_entry_word(store, e, Field::Value, u.saved);
    chain::push_free(store, m, i);
}

// The membership goes out, and it and the record are free.
fn undo_added(store: &mut [u32], m: usize, i: usize)
    requires { AddedBack store.old m i }
    ensures { store.new ≡ added_back store.old m i }
{
    let u = Undo::load(store, m, i);
    let d = u.descriptor as usize;
    let member = u.saved as usize;
    members::take_member(store, m, d, member);
    chain::push_free(store, m, member);
    chain::push_free(store, m, i);
}

// The record is a membership again.
fn undo_taken(store: &mut [u32], m: usize, i: usize)
    requires { TakenBack store.old m i }
    ensures { store.new ≡ taken_back store.old m i }
{
    let u = Undo::load(store, m, i);
    let d = u.descriptor as usize;
    members::put_member(store, m, d, i, u.entry);
}

// Undoes record i.
pub fn undo_one(store: &mut [u32], m: usize, i: usize)
    requires { Undoing store.old m i }
    ensures { store.new ≡ undo_one store.old m i }
{
    match undos::undo_kind(store, m, i) {
        undos::VALUE => undo_value(store, m, i),
        undos::ADDED => undo_added(store, m, i),
        _ => undo_taken(store, m, i),
    }
}

// Undoes at most r records from record i on, the next of each read before it is undone.
pub fn undo_all(store: &mut [u32], m: usize, r: usize, i: usize)
    requires { Undoings store.old m r i }
    ensures { store.new ≡ undo_all store.old m r i }
{
    let mut at = i;
    for _turn in 0..r {
        if at == 0 {
            return;
        }
        let next = words::word(store, m, at, 0) as usize;
        undo_one(store, m, at);
        at = next;
    }
}

// ---- a chain given back: the loop of undo_all with another step, which one loop over a closure would not say more plainly, since the step's
// writes, and what each needs of the words, would stand in its clauses

// Frees at most r records from record i on, the next of each read before it is freed.
pub fn free_chain(store: &mut [u32], m: usize, r: usize, i: usize)
    requires { Walk store.old m r i }
    ensures { store.new ≡ free_chain store.old m r i }
{
    let mut at = i;
    for _turn in 0..r {
        if at == 0 {
            return;
        }
        let next = words::word(store, m, at, 0) as usize;
        chain::push_free(store, m, at);
        at = next;
    }
}
