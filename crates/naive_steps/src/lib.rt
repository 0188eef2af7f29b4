// Naive steps: the descent of a party, the stages of the parties, the order of begins and the undo log of the second model.
//
// state is all that the model keeps; descent is the way from the root to the lowest node of a key, a step a level; line the begun sessions in the order in
// which they began; party the requests in hand and what is told of a call; undo the log of what abort takes back, and the end of a session. It promises that
// every function is safe and ends. It rests on naive_tree for the model's descriptors and tree, and for the events that it counts.
#![tactic(auto)]

pub mod descent;
pub mod line;
pub mod party;
pub mod state;
pub mod undo;
