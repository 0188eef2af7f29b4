// Judge: what both judges say of a sample, and of it with one word changed.
use crate::tally::{Verdict, note};
use crate::values::{LENGTHS, VALUES, length, value};
use samples::words::{PARTIES, Row, STORE, Words};
use sessions::Session;
use std::{array, io};

// How many words the session table has.
const TABLE: u32 = STORE as u32;

// The words of a row as a record of the table. Crate books has its own: what is damaged and what is compared share no reading of the words.
fn session(row: Row) -> Session {
    let [
        begun,
        code,
        entry,
        first,
        second,
        stage,
        target,
        at,
        level,
        low,
        high,
        last,
        undo,
        order,
        asked,
    ] = row;
    Session {
        begun,
        code,
        entry,
        first,
        second,
        stage,
        target,
        at,
        level,
        low,
        high,
        last,
        undo,
        order,
        asked,
    }
}

fn table(w: &Words) -> [Session; PARTIES] {
    array::from_fn(|p| session(w.row(p)))
}

// Does this clause, and no other, refuse the sample?
pub fn is_only_refused(w: &Words, words: u32, clause: u32) -> bool {
    checker::is_only_refusal(w.store(words), table(w), clause)
}

// What the store's test and the checker say.
fn judge(w: &Words, words: u32) -> Verdict {
    let s = w.store(words);
    let t = table(w);
    Verdict::new(sound::is_sound(s, t), checker::sound_by_paper(s, t))
}

// Judges the sample after change r: first as it is and at other lengths, then with each other value in each word of the table and of the store.
fn judge_changed(rt: &impl Print, w: &mut Words, words: u32, r: u32) -> io::Result<()> {
    if r < LENGTHS {
        let verdict = judge(w, length(words, r));
        return note(rt, w, verdict, r);
    }
    let i = (r - LENGTHS) / VALUES;
    let at = i as usize;
    let x = w.get(at);
    let y = value(w, words, i, x, (r - LENGTHS) % VALUES);
    if y == x {
        return Ok(());
    }
    w.set(at, y);
    let verdict = judge(w, words);
    w.set(at, x);
    note(rt, w, verdict, r)
}

// All changes, the last first. The words are changed in small stores only.
pub fn damage(rt: &impl Print, w: &mut Words, words: u32) -> io::Result<()> {
    let changes = if 1000 < words {
        LENGTHS
    } else {
        LENGTHS + VALUES * (TABLE + words)
    };
    for r in (0..changes).rev() {
        judge_changed(rt, w, words, r)?;
    }
    Ok(())
}
