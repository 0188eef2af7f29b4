// The machine: every call of document 01 as one executable definition on states, and what is proved of it.
//
// Definitions, to be read in this order: Holders (words of holders, who is in the way), Tree, State, Descent (splits, joins, moves), Steps (one definition
// for each step), Calls (refusals in order, the six calls), Sound ("Sound means", of a state).
// Promises: Keeping.keeps (every call from a sound state leaves a sound state), Answers and Held (demand 2: answers, long locks), Waits, Naming, Needs and Forward
// (demand 2: a step waits exactly if a lock is in its way, and names the session that began first, or the one with the first latch; it is refused 11 or 12 exactly
// if document 01 says so, and otherwise goes forward), Demand3 (demand 3 for every list of calls), Begins and Line (the order of begins: what an accepted begin
// numbers, and over every list of calls the numbers stand in the order of begins). The crate `cases` has worked examples.
// Rests on: `serial` for the logical model and the serial-run theorem, `locks` for the bits of holders words, `words` for how many records a store has.
#![tactic(auto)]
