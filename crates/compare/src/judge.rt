// Judge: the checker is asked whether the store is sound; and with one word changed it must be refused by 2 exactly if the checker finds it unsound.
use crate::serve::on_store;
use books::book::Book;
use books::call::{Call, Said};
use books::checks::{ask_checker, is_sound, note_damage};
use schedules::side::{PARTIES, Side};
use turns::damage::{other, place};

// A number that is no party's is refused by 4, and by 2 before that.
fn is_taken(s: &mut Side, b: &mut Book, words: u32) -> bool {
    !matches!(
        on_store(s, b, words, Call::Begin(PARTIES as u32)),
        Said::Refused { by: 2, .. }
    )
}

// What both find of the store as it stands, a word of it changed.
fn judge_damaged(s: &mut Side, b: &mut Book) {
    let words = b.round.size.words;
    let is_good = is_sound(s, words);
    let is_kept = is_taken(s, b, words);
    note_damage(b, is_good, is_kept);
}

// Changes a word, and back.
fn damage(s: &mut Side, b: &mut Book) {
    let at = place(b);
    let old = s.word(at);
    s.set_word(at, other(b, old));
    judge_damaged(s, b);
    s.set_word(at, old);
}

pub fn judge(s: &mut Side, b: &mut Book) {
    ask_checker(s, b);
    damage(s, b);
}
