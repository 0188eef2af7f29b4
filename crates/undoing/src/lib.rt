// Undoing: what abort does to the words between the end of the request in hand and the end of the session: undo records undone, newest first.
//
// It promises (specs/): `OneUndone.undo-one-row`, words that hold a layout
// hold the next one after one undo record is undone, and mean the machine's `undo`; `AllUndone.undo-all-row`, the same for the whole chain, and that the
// code's `requires` is met. It rests on `members` and `undo_log` for the words, on `layout` for what words hold, on `machine` for what undoing means.
#![tactic(auto)]
