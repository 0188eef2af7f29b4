// Cases: worked examples of the machine, each row computed and held to the numbers that the rules give. There is no code here.
//
// Promises (specs/): Rows has the form of a row, its lines with what each answers and what is seen in the end; Cases the traces of the scope paper, as one
// table checked by one theorem; Directed each kind of step, wait and refusal where it turns, and the order of begins. Nothing rests on them.
// Rests on: `machine` for the calls.
#![tactic(auto)]
