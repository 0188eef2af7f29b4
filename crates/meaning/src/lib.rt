// Meaning: what the words of a store and its session table mean, as a state of the machine, and when they are sound.
//
// It promises (specs/): `Reading.meaning`, total and executable; `Sound.Sound`, a record with a field for each clause of document 01's "Sound means",
// whose field `state` says that the meaning is a sound state of the machine. The other files have the parts of the meaning and laws of them, for the
// crates `layout` and `soundness`: lists of record numbers (Numbers, Counts), how high a tree is (Heights), chains and trees (Frame), entries (Parts,
// Writes), a tree with a hole (Around, Lens), the node where a session stands (Stand, Latched), sessions (Table), a group with one member more or less
// (Grouping).
// It rests on `machine` for states and on the crates of record kinds for what a record's words say.
#![tactic(auto)]
