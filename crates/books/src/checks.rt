// Checks: the checker is asked whether a store is sound, and what a copy with one word changed gave is noted.
use crate::book::Book;
use crate::counts::What;
use crate::seats::table;
use schedules::side::Side;

// Does the checker find the store sound that has so many words?
pub fn is_sound(s: &Side, words: u32) -> bool {
    match s.store.get(..words as usize) {
        Some(store) => checker::sound_by_paper(store, table(s)),
        None => false,
    }
}

pub fn ask_checker(s: &Side, b: &mut Book) {
    b.counts.checked.count();
    if !is_sound(s, b.round.size.words) {
        b.differ(What::Soundness, 0, 1);
    }
}

// A store with one word changed: whether the checker finds it sound, and whether the store takes calls on it.
pub fn note_damage(b: &mut Book, is_good: bool, is_kept: bool) {
    if is_good != is_kept {
        b.differ(What::Damage, 0, 0);
    }
    if is_good {
        b.counts.damaged_sound.count();
    } else {
        b.counts.damaged_unsound.count();
    }
}
