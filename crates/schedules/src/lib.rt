// Schedules: what the program compare is made of besides the two stores: random numbers, a reading of the store's words, the logical model, a reading
// of a card's day, and the log of what sessions have finished.
//
// side is a session table and the store behind it. The reading of its words is written from docs/STORE.md alone and shares no code with the store. The
// logical model is document 01's: a value for each entry, a set of memberships, sessions run whole. days has the day that a party keeps and reads it on
// its own, without the crates that the store reads it with. What is promised is that every function is safe and ends. It rests on no other crate.
#![tactic(auto)]

pub mod content;
pub mod days;
pub mod logs;
pub mod random;
pub mod reading;
pub mod requests;
pub mod side;
pub mod words;
