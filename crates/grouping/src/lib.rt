// Grouping: what the words of a group are after a membership is put in or taken out.
//
// It promises (specs/GroupWords): the records that `members::put_member` and `take_member` write, that the group fits its list with one member more or less, and
// by which record an entry is a member then; and how several writes, with M and R fixed, follow one another. There is no code here. It rests on `members` for the
// words, on `layout` for what fits.
#![tactic(auto)]
