// Books: what a run of the program compare counts, and what it compares without a call.
//
// book has the numbers of the run and keeps the first difference; counts is what is counted; call is a call and its answer; looks compares entries, tree,
// holders, members, the order of begins and who is asked with the second model; contents compares a store with the logical content; seats reads and writes
// the session table of a side; checks asks the checker; report prints the book. It promises that every function is safe and ends. It rests on schedules for
// random numbers, for reading words and for the logical content, on naive for the second model, on sessions and checker for the second judge.
#![tactic(auto)]

pub mod book;
pub mod call;
pub mod checks;
pub mod contents;
pub mod counts;
pub mod looks;
pub mod report;
pub mod seats;
