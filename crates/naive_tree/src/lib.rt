// Naive tree: the search structure of the second model (crate naive), its descriptors and its tree nodes, and the events that the model counts.
#![tactic(auto)]

pub mod events;
pub mod keys;
pub mod tree;
