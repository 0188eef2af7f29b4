// Make: a call made on both, and all that is compared after it.
use crate::content::see_copy;
use crate::days::day_on_store;
use crate::judge::judge;
use crate::run::Run;
use crate::serve::on_store;
use books::book::Book;
use books::call::{Call, DayCall, Said};
use books::checks::ask_checker;
use books::looks::see;
use choices::kinds::checks;
use turns::answers::{see_call, see_rest};
use turns::days::see_day;
use turns::hands::after;
use turns::model::on_model;

// Is the checker to be asked at this call?
fn is_due(b: &Book) -> bool {
    b.round.call.checked_rem(checks(&b.round.size)) == Some(0)
}

// How many words the store of a call has.
fn store_words(b: &Book, c: Call) -> u32 {
    match c {
        Call::Format { words, .. } => words,
        _ => b.round.size.words,
    }
}

impl Run {
    // What is compared whole at a call that may have changed a word; and the checker is asked, at every so many calls.
    fn look(&mut self, said: Said) {
        if !said.is_still() {
            see(&self.side, &self.model, &mut self.book);
        }
        if is_due(&self.book) {
            judge(&mut self.side, &mut self.book);
        }
    }

    fn make_day(&mut self, c: DayCall) {
        let old = self.side;
        let x = day_on_store(&mut self.side, &self.book, c);
        see_day(&self.side, &old, &mut self.model, &mut self.book, c, x);
        self.look(x.said);
    }

    fn make_other(&mut self, c: Call) {
        let old = self.side;
        let words = store_words(&self.book, c);
        let x = on_store(&mut self.side, &mut self.book, words, c);
        let y = on_model(&mut self.model, &mut self.book, c);
        see_call(&self.side, &old, &mut self.book, c.kind(), x, y);
        see_rest(&self.side, &old, &mut self.book, c, x);
        after(&mut self.book, c, x);
        match c {
            Call::Recover => ask_checker(&self.side, &mut self.book),
            Call::Commit(_) if x == Said::Ok => see_copy(&self.side, &mut self.book),
            _ => {}
        }
        self.look(x);
    }

    pub fn make(&mut self, c: Call) {
        match c {
            Call::Day(day) => self.make_day(day),
            _ => self.make_other(c),
        }
    }
}
