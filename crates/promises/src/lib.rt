// Promises: what the six calls promise on words, and the demands over these promises.
//
// specs/Relations has the two relations that the contracts of `calls` and `store` cite. Demand1 and Demand2 say what demands 1 and 2 ask of each call,
// Holding what demand 2 says of holders over every list of calls, Line what the order of begins is over every list of calls; Words and Promised that every
// list of calls which keep their promises keeps demand 3.
// Ways, Stepping, Naming (whom a wait names) and Steps say that each way out of a call keeps them. Runs says what a run and a request promise, each a list of
// ordinary calls, and Making how such lists are made. There is no code here. It rests on `machine` for what a call does and for the demands on states, on
// `meaning` and `layout` for what words mean, on `soundness` for the test, on `refusals` for the numbers, on `seniority` for who began first, and on the rows:
// leaving, aborting, starting, root_entry, walking, arriving, changing and taking.
#![tactic(auto)]
