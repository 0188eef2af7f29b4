// Answers: what the store and the model said, compared and counted, and which words a call may change.
use books::book::{Book, Size};
use books::call::{Call, Kind, Said};
use books::counts::What;
use schedules::side::{ENTRY_WORDS, HEADER_WORDS, RECORD_WORDS, Side};

// What the number beside a word is.
fn number_of(said: Said) -> What {
    match said {
        Said::Wait(_) => What::Named,
        _ => What::Number,
    }
}

// In which bits some word of the two lists is not the same.
fn lists(b: &Book) -> u32 {
    b.round
        .store_list
        .iter()
        .zip(b.round.model_list.iter())
        .fold(0, |bits, (x, y)| bits | (x ^ y))
}

// The store's answer is the model's, and so is its list.
fn see_answer(b: &mut Book, x: Said, y: Said) {
    b.same(What::Word, x.word(), y.word());
    b.same(number_of(x), x.number(), y.number());
    b.same(What::Beside, x.beside(), y.beside());
    b.same(What::List, lists(b), 0);
}

// Where the words behind the store begin, those that no record has.
fn end(size: &Size) -> usize {
    HEADER_WORDS + ENTRY_WORDS * size.entries as usize + RECORD_WORDS * size.records as usize
}

// The call changed no word at all, or none behind the store.
fn see_words(s: &Side, old: &Side, b: &mut Book, said: Said) {
    if said.is_still() {
        b.counts.unchanged.count();
        if *s != *old {
            b.differ(What::Touched, said.word(), said.number());
        }
    } else if !s.is_kept_from(old, end(&b.round.size)) {
        b.differ(What::Beyond, said.word(), said.number());
    }
}

// All that is seen after a call of a kind, before which the side was as the old one: store and model said x and y.
pub fn see_call(s: &Side, old: &Side, b: &mut Book, kind: Kind, x: Said, y: Said) {
    b.round.call = b.round.call.wrapping_add(1);
    b.counts.count_call(kind, x);
    see_answer(b, x, y);
    see_words(s, old, b, x);
}

// Which words an accepted call kept: an ask changes its session's mark alone, a recover no record of a session that is asked.
fn is_rest_kept(s: &Side, old: &Side, c: Call) -> bool {
    match c {
        Call::Ask(p) => s.is_kept_but_mark(old, p),
        Call::Recover => s.are_asked_kept(old),
        _ => true,
    }
}

// The side was as the old one before a call that was answered by this.
pub fn see_rest(s: &Side, old: &Side, b: &mut Book, c: Call, said: Said) {
    if said == Said::Ok && !is_rest_kept(s, old, c) {
        b.differ(What::Touched, c.kind() as u32, c.party());
    }
}

// The recover of a copy said x.
pub fn see_recover(b: &mut Book, x: Said) {
    b.counts.copies_recovered.count();
    b.same(What::Recover, x.word(), Said::Ok.word());
}

// The abort of a session on a copy said x.
pub fn see_abort(b: &mut Book, x: Said) {
    b.counts.copies_aborted.count();
    b.same(What::Abort, x.word(), Said::Ok.word());
}
