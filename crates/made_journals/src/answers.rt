// Answers: the store that a journal is answered by, a table of all keys and entries that the journal is about; and the lists of its locates.
use crate::book::{Book, POOL, raise};
use crate::records::{Journal, LOCATE, READ, Word};

impl Book {
    // Is the pair of the table at these places a member with its key from first to second?
    fn is_listed(&self, key: u32, entry: u32, first: u32, second: u32) -> bool {
        let number = self.keys.number(key);
        self.is_member(key as usize, entry as usize) && first <= number && number <= second
    }

    fn count_listed(&self, first: u32, second: u32) -> u32 {
        let mut n = 0u32;
        for key in 0..self.keys.len() {
            for entry in 0..POOL as u32 {
                if self.is_listed(key, entry, first, second) {
                    raise(&mut n);
                }
            }
        }
        n
    }

    // Has a record this pair and this next index?
    fn has_pair(&self, j: &Journal, i: u32, key: u32, entry: u32, next: u32) -> bool {
        let at = self.record(i);
        j.word(at, Word::Next) == next
            && j.word(at, Word::PAIR_KEY) == key
            && j.word(at, Word::PAIR_ENTRY) == entry
    }

    // Which of the records in use has this pair and this next index. No locate of the main chain is one: it may yet become a read.
    fn place_of_pair(&self, j: &Journal, key: u32, entry: u32, next: u32) -> Option<u32> {
        let from = if entry == LOCATE { self.main } else { 0 };
        (from..self.used).find(|i| self.has_pair(j, *i, key, entry, next))
    }

    // A new record for a pair, the next one taken into use.
    fn new_pair(&mut self, j: &mut Journal, key: u32, entry: u32, next: u32) -> u32 {
        let at = self.record(self.used);
        j.set(at, Word::Next, next);
        j.set(at, Word::PAIR_KEY, key);
        j.set(at, Word::PAIR_ENTRY, entry);
        raise(&mut self.used);
        raise(&mut self.tally.made);
        at
    }

    // A record for a pair, which in some journals may be one that is in use already.
    fn pair(&mut self, j: &mut Journal, key: u32, entry: u32, next: u32) -> u32 {
        if !self.is_sharing || self.random.chance(1, 8) {
            return self.new_pair(j, key, entry, next);
        }
        let Some(i) = self.place_of_pair(j, key, entry, next) else {
            return self.new_pair(j, key, entry, next);
        };
        raise(&mut self.tally.shared);
        if i < self.main {
            raise(&mut self.tally.crossed);
        }
        self.record(i)
    }

    // The list of a range, made from its end.
    fn list(&mut self, j: &mut Journal, first: u32, second: u32) -> u32 {
        let mut next = 0;
        for key in (0..self.keys.len()).rev() {
            for entry in (0..POOL as u32).rev() {
                if self.is_listed(key, entry, first, second) {
                    let key = self.keys.number(key);
                    let entry = self.entries.number(entry);
                    next = self.pair(j, key, entry, next);
                }
            }
        }
        next
    }

    // The value of the entry of a record.
    fn value(&mut self, j: &Journal, at: u32) -> Option<&mut u32> {
        let entry = self.entries.place_of(j.word(at, Word::Entry))?;
        self.values.get_mut(entry)
    }

    fn read(&mut self, j: &Journal, at: u32) -> u32 {
        self.value(j, at).map_or(0, |value| *value)
    }

    fn write(&mut self, j: &Journal, at: u32) {
        if let Some(value) = self.value(j, at) {
            *value = j.word(at, Word::First);
        }
    }

    // Is the record's pair a member?
    fn member(&mut self, j: &Journal, at: u32) -> Option<&mut bool> {
        let key = self.keys.place_of(j.word(at, Word::First))?;
        let entry = self.entries.place_of(j.word(at, Word::Entry))?;
        self.members.get_mut(key)?.get_mut(entry)
    }

    // Makes the record's pair a member, or no member. Says whether it was not so before.
    fn set_member(&mut self, j: &Journal, at: u32, is_one: bool) -> bool {
        match self.member(j, at) {
            Some(member) => {
                let was_one = *member;
                *member = is_one;
                was_one != is_one
            }
            None => false,
        }
    }

    // A locate. Where its list has no room it becomes a read.
    fn locate(&mut self, j: &mut Journal, at: u32) -> u32 {
        let first = j.word(at, Word::First);
        let second = j.word(at, Word::Second);
        let n = self.count_listed(first, second);
        if self.records.wrapping_sub(self.used) < n {
            let entry = self.some_entry();
            j.set(at, Word::Code, READ);
            j.set(at, Word::Entry, entry);
            return self.read(j, at);
        }
        let start = self.list(j, first, second);
        j.set(at, Word::List, start);
        n
    }

    // Does a request and writes down its answer.
    pub fn answer(&mut self, j: &mut Journal, at: u32) {
        let answer = match j.word(at, Word::Code) {
            1 => self.read(j, at),
            2 => {
                self.write(j, at);
                0
            }
            3 => u32::from(self.set_member(j, at, true)),
            4 => u32::from(self.set_member(j, at, false)),
            _ => self.locate(j, at),
        };
        j.set(at, Word::Answer, answer);
    }
}
