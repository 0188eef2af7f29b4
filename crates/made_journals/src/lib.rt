// Made journals: journals that are to be accepted, made at random, for the comparison of two checkers.
//
// Several runs go on side by side, which commit, stop or are unfinished at the end. Those that commit are answered in order of commit by a table of all
// keys and entries that the journal is about. Its records lie in any order, with others between that no chain has; lists may share records with other lists
// and with the main chain. All that is ignored has any words.
//
// It promises that every function is safe and ends, and that a random number below n is. book has what a journal is made by, choices chooses it, make makes
// the journal, answers has the store and the lists, records the bytes.
#![tactic(auto)]

pub mod answers;
pub mod book;
pub mod choices;
pub mod make;
pub mod random;
pub mod records;
