// Scripts: the lines of a script read, and what they tell written, as text. No call is made here.
//
// lines takes a line byte by byte and says which command it is: a letter and numbers in base ten. text writes an answer as a line. What is promised is that
// every function is safe and ends, that a comment changes nothing, and that a line with a word of no such form stays malformed. It rests on outcomes for the
// answers.
#![tactic(auto)]

pub mod lines;
pub mod text;
