// Choices: how large a journal is, what it is about, and the order in which its records are taken into use.
use crate::book::{Book, POOL, RECORDS};
use crate::random::Random;
use crate::records::{TOP_ENTRY, TOP_KEY};

// Of so many journals one has 2,048 records; of so many, one has some hundreds.
const FULLS: u32 = 1000;

const LARGES: u32 = 40;

// A step that n numbers can go up by in so much room. It is odd: words that go up by it differ for long, even when they begin again from 0.
fn odd_step(random: &mut Random, room: u32, n: u32) -> u32 {
    match room.checked_div(n) {
        Some(step) => random.below(step) | 1,
        None => 1,
    }
}

// Chooses where n numbers from 1 to top begin, and the step from one to the next: the lowest, the highest, some about a number whose low bytes are 0, or any.
fn some_rising(random: &mut Random, n: u32, top: u32, round: u32) -> (u32, u32) {
    match random.below(5) {
        0 => (1, 1),
        1 => (top.wrapping_sub(n).wrapping_add(1), 1),
        2 => (round.wrapping_sub(n / 2), 1),
        _ => {
            let first = random.below(top / 2).wrapping_add(1);
            (first, odd_step(random, top / 2, n.wrapping_add(1)))
        }
    }
}

// A number whose low bytes are 0.
fn round_number(random: &mut Random) -> u32 {
    match random.below(4) {
        0 => 256,
        1 => 65536,
        2 => 16777216,
        _ => 2147483648,
    }
}

impl Book {
    // Is this journal one of 2,048 records?
    pub fn is_full(&self) -> bool {
        self.number % FULLS == FULLS - 1
    }

    fn is_large(&self) -> bool {
        self.number % LARGES == LARGES - 1
    }

    // How many records the main chain has. Of those of 2,048 records some have no other.
    fn main_length(&mut self) -> u32 {
        if self.is_full() {
            if self.random.chance(1, 4) {
                return 2048;
            }
            return self.random.below(1600).wrapping_add(400);
        }
        if self.is_large() {
            return self.random.below(240).wrapping_add(60);
        }
        self.random.below(48).wrapping_add(1)
    }

    // How many records there are, and how many on the main chain.
    fn choose_size(&mut self) {
        let main = self.main_length();
        let more = if self.is_full() {
            2048u32.wrapping_sub(main)
        } else {
            self.random.below(main.wrapping_add(main).wrapping_add(4))
        };
        self.main = main;
        self.used = main;
        self.records = main.wrapping_add(more);
        self.length = self.records << 5;
    }

    // How many keys or entries the journal is about, few so that requests meet.
    fn some_count(&mut self) -> u32 {
        let most = if self.is_large() { 32 } else { 6 };
        self.random.below(most).wrapping_add(1)
    }

    // The keys. Some journals have them for the words of their runs.
    fn choose_keys(&mut self) {
        let n = self.some_count();
        let width = self.random.below(n).wrapping_add(1);
        let round = round_number(&mut self.random);
        let (first, step) = some_rising(&mut self.random, n, TOP_KEY, round);
        self.keys.fill(n, first, step);
        self.width = width;
        self.run_next = first;
        self.run_step = step;
    }

    fn choose_entries(&mut self) {
        let n = self.some_count();
        let (first, step) = some_rising(&mut self.random, n, TOP_ENTRY, 256);
        self.entries.fill(n, first, step);
    }

    // What the journal is about. Where the main chain crosses lists, codes are entries, and the words of the runs are not keys. Else those go up by a step that
    // is odd.
    fn choose_matter(&mut self) {
        self.choose_keys();
        self.choose_entries();
        let is_crossing = self.random.below(3) == 0;
        self.is_crossing = is_crossing;
        if self.random.chance(1, 2) && !is_crossing {
            return;
        }
        self.run_next = self.random.next();
        self.run_step = self.random.next() | 1;
        if is_crossing {
            let n = self.random.below(4).wrapping_add(1);
            self.entries.fill(n, 1, 1);
        }
    }

    // The word of a run that no earlier one has.
    pub fn new_run(&mut self) -> u32 {
        let run = self.run_next;
        self.run_next = run.wrapping_add(self.run_step);
        run
    }

    // How the runs go on: how many side by side, how often one commits.
    fn choose_runs(&mut self) {
        let sides = self.random.below(6).wrapping_add(1);
        self.sides = sides;
        self.commits = self.random.below(12).wrapping_add(3);
        self.is_late = self.random.below(3) != 0;
        self.is_sharing = self.random.below(3) != 0;
        for s in 0..sides {
            let run = self.new_run();
            self.set_side_run(s, run);
        }
    }

    // The first record taken into use is 1. The others are in any order, or in that of the file.
    fn choose_order(&mut self) {
        let n = self.records;
        let mut number = 0u32;
        for record in self.order.iter_mut().take(n as usize) {
            number = number.wrapping_add(1);
            *record = number;
        }
        if self.random.chance(1, 4) {
            return;
        }
        for i in 2..n {
            let k = self.random.below(i).wrapping_add(1);
            self.exchange(i as usize, k as usize);
        }
    }

    fn exchange(&mut self, i: usize, k: usize) {
        if i < RECORDS && k < RECORDS {
            self.order.swap(i, k);
        }
    }

    // Chooses all that a journal is made by. Its store is empty, and no record is answered.
    pub fn choose(&mut self) {
        self.choose_size();
        self.choose_matter();
        self.choose_runs();
        self.choose_order();
        self.values = [0; POOL];
        self.members = [[false; POOL]; POOL];
        self.answered = [false; RECORDS];
    }
}
