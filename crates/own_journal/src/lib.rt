// Own journal: the journal that a host writes down of its calls of a store, and that every such journal is accepted. There is no code here.
//
// Promises (specs/): Diary says what is written down, read off calls and answers alone; Own that the journal of any list of calls of a store that keeps demand 3
// gets verdict 0 and has the committed sessions for its committed runs; Checked that a line's code and numbers are proper exactly if put's own checks pass;
// Machine that the machine is such a store; Example a run of it with its file.
// Rests on: `serial` for calls, histories and demand 3, `machine` for the checks and the example, `journal_reader` and `journal_lines` for the verdict.
#![tactic(auto)]
