// Content: the store with every unfinished session aborted, often by a recover first, compared with the logical model.
use crate::serve::on_store;
use books::book::Book;
use books::call::Call;
use books::contents::see_all;
use choices::choose::in_sequence;
use schedules::side::{SESSIONS, Side};
use turns::answers::{see_abort, see_recover};

fn abort_one(s: &mut Side, b: &mut Book, p: u32) {
    if s.is_begun(p) {
        let words = b.round.size.words;
        let x = on_store(s, b, words, Call::Abort(p));
        see_abort(b, x);
    }
}

fn abort_all(s: &mut Side, b: &mut Book) {
    let x = b.random.word();
    for i in 0..SESSIONS {
        abort_one(s, b, in_sequence(x, i));
    }
}

// A recover aborts those that are not asked.
fn end_unasked(s: &mut Side, b: &mut Book) {
    let words = b.round.size.words;
    let x = on_store(s, b, words, Call::Recover);
    see_recover(b, x);
}

// A copy of the store has what the content has, once all that are begun are aborted.
pub fn see_copy(s: &Side, b: &mut Book) {
    let mut copy = *s;
    if b.random.chance(1, 2) {
        end_unasked(&mut copy, b);
    }
    abort_all(&mut copy, b);
    see_all(&copy, b);
}
