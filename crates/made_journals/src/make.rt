// Make: a journal that is to be accepted. Several runs go on side by side; each commits, or stops, or is unfinished at the end.
use crate::book::{Book, raise};
use crate::records::{COMMIT, Journal, LOCATE, READ, TOP_KEY, Word};

impl Book {
    // Fills all records. What is not written over is ignored.
    fn fill(&mut self, j: &mut Journal) {
        for i in 0..self.records {
            for k in 0..8 {
                let x = self.some_word();
                j.set(i.wrapping_add(1), Word::at(k), x);
            }
        }
    }

    fn some_code(&mut self) -> u32 {
        match self.random.below(12) {
            0 | 1 => READ,
            2 | 3 => 2,
            4..=7 => 3,
            8 => 4,
            _ => LOCATE,
        }
    }

    // A range between two of the keys, or one wider at an end.
    fn set_range(&mut self, j: &mut Journal, at: u32) {
        let i = self.random.below(self.keys.len());
        let k = i.wrapping_add(self.random.below(self.width));
        let first = self.keys.number(i);
        let second = self.keys.number(k.min(self.keys.len().wrapping_sub(1)));
        let less = self.random.below(2);
        let more = self.random.below(2);
        j.set(at, Word::First, first.saturating_sub(less).max(1));
        j.set(at, Word::Second, second.saturating_add(more).min(TOP_KEY));
    }

    fn set_request(&mut self, j: &mut Journal, at: u32) {
        let code = self.some_code();
        j.set(at, Word::Code, code);
        if code == LOCATE {
            self.set_range(j, at);
            return;
        }
        let entry = self.some_entry();
        let key = self.some_key();
        j.set(at, Word::Entry, entry);
        match code {
            1 => {}
            2 => {
                let x = self.some_word();
                j.set(at, Word::First, x);
            }
            _ => j.set(at, Word::First, key),
        }
    }

    // Which of the runs that go on side by side record i of the main chain is of. Where commits are late, the last records are one of each.
    fn some_side(&mut self, i: u32) -> u32 {
        let left = self.main.wrapping_sub(i);
        if self.is_late && left <= self.sides {
            return left.wrapping_sub(1);
        }
        self.random.below(self.sides)
    }

    // Does the run commit at record i of the main chain? Where commits are late, most of the last records are.
    fn is_commit(&mut self, i: u32) -> bool {
        let left = self.main.wrapping_sub(i);
        if !self.is_late {
            return self.random.chance(1, self.commits);
        }
        if left <= self.sides {
            return self.random.chance(7, 8);
        }
        self.random.chance(1, self.commits << 2)
    }

    // Gives record i of the main chain its next index, its run and what the run does.
    fn set_line(&mut self, j: &mut Journal, i: u32) {
        let at = self.record(i);
        let after = i.wrapping_add(1);
        let side = self.some_side(i);
        let next = if after < self.main {
            self.record(after)
        } else {
            0
        };
        j.set(at, Word::Next, next);
        j.set(at, Word::Run, self.side_run(side));
        let does_commit = self.is_commit(i);
        if does_commit {
            j.set(at, Word::Code, COMMIT);
        } else {
            self.set_request(j, at);
        }
        if does_commit || self.random.chance(1, 40) {
            let other = self.new_run();
            self.set_side_run(side, other);
        }
    }

    // Makes record i of the main chain the pair of the highest key and of this entry, if there is room for both. It is the request of an unfinished run.
    fn cross(&mut self, j: &mut Journal, i: u32, entry: u32) {
        if entry == 0 || self.main <= i {
            return;
        }
        let at = self.record(i);
        let key = self.keys.last();
        self.set_request(j, at);
        j.set(at, Word::Run, key);
        j.set(at, Word::Code, entry);
        j.set(at, Word::Entry, entry);
        j.set(at, Word::First, key);
    }

    // The main chain. Where it crosses lists, its last two records are pairs.
    fn set_main(&mut self, j: &mut Journal) {
        for i in 0..self.main {
            self.set_line(j, i);
        }
        if self.is_crossing {
            let last = self.main.wrapping_sub(1);
            let entry = self.entries.len();
            self.cross(j, last, entry);
            self.cross(j, last.wrapping_sub(1), entry.wrapping_sub(1));
        }
    }

    // Answers the requests of a run among the first n records of the main chain.
    fn answer_run(&mut self, j: &mut Journal, n: u32, run: u32) {
        for i in 0..n {
            let at = self.record(i);
            if j.word(at, Word::Run) == run {
                self.answer(j, at);
                self.set_answered(i);
                raise(&mut self.tally.done);
            }
        }
    }

    // Answers the runs that commit, in order of commit.
    fn answer_all(&mut self, j: &mut Journal) {
        for i in 0..self.main {
            let at = self.record(i);
            if j.word(at, Word::Code) == COMMIT {
                self.answer_run(j, i, j.word(at, Word::Run));
                self.set_answered(i);
                raise(&mut self.tally.runs);
            }
        }
    }

    // A request of an unfinished run. If it is a locate, its list is none, or any chain from some place on.
    fn leave(&mut self, j: &mut Journal, at: u32) {
        raise(&mut self.tally.undone);
        if j.word(at, Word::Code) != LOCATE {
            return;
        }
        let i = self.random.below(self.used);
        let is_none = self.random.chance(1, 4);
        j.set(at, Word::List, if is_none { 0 } else { self.record(i) });
    }

    fn leave_all(&mut self, j: &mut Journal) {
        for i in 0..self.main {
            if !self.is_answered(i) {
                self.leave(j, self.record(i));
            }
        }
    }

    // The journal that the choices give.
    pub fn make(&mut self, j: &mut Journal) {
        self.fill(j);
        self.set_main(j);
        self.answer_all(j);
        self.leave_all(j);
    }
}
