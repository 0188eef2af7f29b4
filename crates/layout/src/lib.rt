// Layout: where everything of a state lies in the words, record by record.
//
// It promises (specs/): `Layout.Lay`, a numbered tree with each group's, undo chain's and the free chain's records; `Layout.Holds`, that words and table
// hold it; that a sound store holds a layout, and means what the layout means (Laid); that words which hold a layout that means a sound state are sound
// (Back); and what writes leave of `Holds` (Keep). It rests on `meaning` for what is read from words and what is sound, on `machine` for states.
#![tactic(auto)]
