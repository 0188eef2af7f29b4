// Turns: what a call of a run of the program compare means without the store.
//
// model makes the call on the second model; answers compares what the two said; hands keeps the requests in hand, who is begun and who is
// asked, and runs the sessions that have ended on the logical model; days makes of a day call a refusal or the put or step that it is; damage changes a
// word; numbers gives the parties other numbers in the order of begins and those that are asked other marks. It promises that every function is safe and
// ends. It rests on books for the book of the run and for what a call is, on naive for the second model, on schedules for random numbers, words, the reading
// of a day and the logical model.
#![tactic(auto)]

pub mod answers;
pub mod damage;
pub mod days;
pub mod hands;
pub mod model;
pub mod numbers;
