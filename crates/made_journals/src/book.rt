// Book: what a journal is made by. A book serves for many journals, one after the other.
ghost use Rattle.std.specs.Prelude.{◌≡◌, ◌+◌, ◌<◌};

use crate::random::Random;

// The most records that a journal has, and the most keys, entries and runs side by side that it is about.
pub const RECORDS: usize = 2048;

pub const POOL: usize = 32;

pub const SIDES: usize = 6;

// The keys or the entries that a journal is about, rising. An array and its length behind methods: a vector of the same room would only add pushes whose
// failing, which cannot come, is to be handled.
#[derive(Clone, Copy)]
pub struct Pool {
    numbers: [u32; POOL],
    length: u32,
}

// What is counted of the journals as they are made.
#[derive(Clone, Copy, Default)]
pub struct Tally {
    // Committed runs, requests of these, requests of unfinished runs.
    pub runs: u32,
    pub done: u32,
    pub undone: u32,
    // List records made, list records shared, and of these the records of the main chain.
    pub made: u32,
    pub shared: u32,
    pub crossed: u32,
}

#[derive(Clone, Copy)]
pub struct Book {
    pub random: Random,
    // The number of the journal.
    pub number: u32,
    // How many records the journal has, how many are on the main chain, and how many are on any chain.
    pub records: u32,
    pub main: u32,
    pub used: u32,
    // How many bytes are judged.
    pub length: u32,
    pub keys: Pool,
    pub entries: Pool,
    // Over how many keys a locate goes at most.
    pub width: u32,
    // The word of the next run, and how far the one after it lies above.
    pub run_next: u32,
    pub run_step: u32,
    // How many runs go on side by side, and their words.
    pub sides: u32,
    pub side_runs: [u32; SIDES],
    // One of so many records is a commit.
    pub commits: u32,
    // Are the last records commits? Do lists share their records? Are the last records of the main chain pairs of lists too?
    pub is_late: bool,
    pub is_sharing: bool,
    pub is_crossing: bool,
    // The values of the entries; and for each key the entries that are members, both by their places in the pools.
    pub values: [u32; POOL],
    pub members: [[bool; POOL]; POOL],
    // The records in the order in which they are taken into use: first the main chain, then the lists.
    pub order: [u32; RECORDS],
    // Which records of the main chain are answered.
    pub answered: [bool; RECORDS],
    pub tally: Tally,
}

impl Pool {
    pub fn new() -> Self {
        Pool {
            numbers: [0; POOL],
            length: 0,
        }
    }

    // Makes the pool n rising numbers.
    pub fn fill(&mut self, n: u32, first: u32, step: u32) {
        let mut x = first;
        for number in self.numbers.iter_mut().take(n as usize) {
            *number = x;
            x = x.wrapping_add(step);
        }
        self.length = n;
    }

    pub fn len(&self) -> u32 {
        self.length
    }

    // Number i, from 0.
    pub fn number(&self, i: u32) -> u32 {
        self.numbers.get(i as usize).copied().unwrap_or(0)
    }

    pub fn last(&self) -> u32 {
        self.number(self.length.wrapping_sub(1))
    }

    // The place of a number.
    pub fn place_of(&self, x: u32) -> Option<usize> {
        self.numbers.iter().position(|number| *number == x)
    }

    // One of the numbers.
    pub fn some(&self, random: &mut Random) -> u32 {
        self.number(random.below(self.length))
    }
}

impl Book {
    pub fn new() -> Self {
        Book {
            random: Random::default(),
            number: 0,
            records: 0,
            main: 0,
            used: 0,
            length: 0,
            keys: Pool::new(),
            entries: Pool::new(),
            width: 0,
            run_next: 0,
            run_step: 0,
            sides: 0,
            side_runs: [0; SIDES],
            commits: 0,
            is_late: false,
            is_sharing: false,
            is_crossing: false,
            values: [0; POOL],
            members: [[false; POOL]; POOL],
            order: [0; RECORDS],
            answered: [false; RECORDS],
            tally: Tally::default(),
        }
    }

    // The record that is taken into use as number i, from 0.
    pub fn record(&self, i: u32) -> u32 {
        self.order.get(i as usize).copied().unwrap_or(0)
    }

    // A record that no chain has, where there is one. Where all 2,048 are on chains, the first one if it is answered.
    pub fn spare(&self) -> u32 {
        if self.used as usize == RECORDS {
            return u32::from(self.answered[0]);
        }
        self.record(self.used)
    }

    // Is record i of the main chain answered?
    pub fn is_answered(&self, i: u32) -> bool {
        self.answered.get(i as usize).copied().unwrap_or(false)
    }

    pub fn set_answered(&mut self, i: u32) {
        if let Some(is_answered) = self.answered.get_mut(i as usize) {
            *is_answered = true;
        }
    }

    // Is the pair a member?
    pub fn is_member(&self, key: usize, entry: usize) -> bool {
        match self.members.get(key) {
            Some(entries) => entries.get(entry).copied().unwrap_or(false),
            None => false,
        }
    }

    // The word of run s of those that go on side by side.
    pub fn side_run(&self, s: u32) -> u32 {
        self.side_runs.get(s as usize).copied().unwrap_or(0)
    }

    pub fn set_side_run(&mut self, s: u32, run: u32) {
        if let Some(side_run) = self.side_runs.get_mut(s as usize) {
            *side_run = run;
        }
    }

    // Any word; often an index, a code or an end of the words.
    pub fn some_word(&mut self) -> u32 {
        match self.random.below(6) {
            0 => 0,
            1 => u32::MAX,
            2 => self.random.below(self.records.wrapping_add(3)),
            3 => self.random.below(7),
            4 => crate::records::COMMIT,
            _ => self.random.next(),
        }
    }

    pub fn some_key(&mut self) -> u32 {
        self.keys.some(&mut self.random)
    }

    pub fn some_entry(&mut self) -> u32 {
        self.entries.some(&mut self.random)
    }
}

pub fn raise(count: &mut u32)
    ensures { count.old < 4294967295 → count.new ≡ count.old + 1 }
{
    *count = count.wrapping_add(1);
}
