// Long locks: the session that `locks::lowest_blocker` names is the first of the machine's blockers, and it names none exactly if there is none; the sessions
// of the word that `locks::conflicting` makes are all of them.
//
// It promises the first (specs/LongLocks) for holders words without a bit above the last session, and that every entry's and descriptor's words in a layout of a
// sound state have none. There is no code here. It rests on `locks` for the code's definition, on `machine` and `layout`.
#![tactic(auto)]
