// Choices: the next call of a run of the program compare, chosen by chance.
//
// keys picks keys and entries, choose the call, days a day call, kinds what a round is like, shares how often what is done. It promises that every function
// is safe and ends. It rests on books for the book of the run and for what a call is, on naive for the second model, on schedules for random numbers, words
// and days.
#![tactic(auto)]

pub mod choose;
pub mod days;
pub mod keys;
pub mod kinds;
pub mod shares;
