// Checker: a second judge of soundness, written from document 01's paragraph "Sound means", document 02's M-101, M-104 and M-105 and readings 15, 16, 28
// and 46 of docs/DECISIONS.md, a function for each clause in its order.
//
// It is slow on purpose: it lists every record as it is reached and then looks through that list again and again. It has no definition and
// shares no code with the store's own test, so that the two can be held against each other. It takes any words and any session records, and
// its contracts say only that it is safe and ends. It rests on sessions for the session record.
#![tactic(auto)]

mod asks;
pub mod clauses;
mod holders;
mod judge;
mod orders;
mod requests;
mod store;
mod table;
mod tree;
mod undos;

use clauses::{ALL, Clause};
use judge::{Judge, List};
use sessions::Session;
use store::Store;
use table::{PARTIES, Table};

// Does this clause, and no other, refuse store and table? With none, are they sound?
fn is_refused_by<'a>(words: &'a [u32], table: &'a Table, clause: Option<Clause>) -> bool {
    let store = Store::new(words);
    let mut list = List::new();
    list.reach(&store, table);
    let judge = Judge {
        store,
        table,
        items: list.items(),
    };
    ALL.iter().all(|&c| judge.keeps(c) == (Some(c) != clause))
}

// Are store and session table sound? No clause refuses.
pub fn sound_by_paper(store: &[u32], t: [Session; PARTIES]) -> bool {
    Store::new(store).are_sizes() && is_refused_by(store, &t, None)
}

// Does this clause, by its number, and no other, refuse store and table? The cases of damage's input name clauses so; a higher number is none.
pub fn is_only_refusal(store: &[u32], t: [Session; PARTIES], clause: u32) -> bool {
    is_refused_by(store, &t, ALL.get(clause as usize).copied())
}
