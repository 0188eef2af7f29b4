// Rounds: a round begins with a format and ends with the abort of all that are begun; its parameters go by its number.
use crate::run::Run;
use books::call::Call;
use books::contents::see_all;
use choices::choose::{in_sequence, next};
use choices::kinds::{first_call, start, turns};
use schedules::side::SESSIONS;
use turns::numbers::spread;

// One of so many calls is made on a table with other numbers in the order of begins.
const SPREADS: u32 = 50;

impl Run {
    fn turn(&mut self, i: u32) {
        if self.book.random.chance(1, SPREADS) {
            spread(&mut self.side, &mut self.model, &mut self.book);
        }
        let c = next(&self.side, &self.model, &mut self.book, i);
        self.make(c);
    }

    fn turns(&mut self) {
        for i in 0..turns(&self.book.round.size) {
            if self.book.round.is_stopped {
                return;
            }
            self.turn(i);
        }
    }

    // Aborts session p if it is begun.
    fn end_one(&mut self, p: u32) {
        if self.side.is_begun(p) {
            self.make(Call::Abort(p));
        }
    }

    // Aborts all that are begun, in a random sequence.
    fn end(&mut self) {
        let x = self.book.random.word();
        for i in 0..SESSIONS {
            self.end_one(in_sequence(x, i));
        }
    }

    // Where no difference was found, the store has at the end what the logical model has.
    pub fn round(&mut self, number: u32) {
        start(&mut self.book, number);
        let size = self.book.round.size;
        self.make(first_call(&size));
        self.turns();
        self.end();
        if !self.book.round.is_stopped {
            see_all(&self.side, &mut self.book);
        }
    }
}
