// Line: the begun sessions, in the order in which they began.
use super::party::PARTIES;
use super::state::State;
use arrayvec::ArrayVec;

/// The begun sessions, in the order in which they began.
#[derive(Default, Drop)]
pub struct Line {
    sessions: ArrayVec<u32, PARTIES>,
}

impl Line {
    pub fn clear(&mut self) {
        self.sessions.clear();
    }

    /// How many sessions are begun.
    pub fn count(&self) -> u32 {
        self.sessions.len() as u32
    }

    /// Of a set of parties, party q as bit q, the one that began first.
    pub fn first_of(&self, parties: u32) -> Option<u32> {
        let mut sessions = self.sessions.as_slice().iter().copied();
        sessions.find(|&q| q < 32 && parties >> q & 1 == 1)
    }

    fn index_of(&self, p: u32) -> Option<usize> {
        self.sessions.as_slice().iter().position(|&q| q == p)
    }

    /// The place of session p in the line, from 1.
    pub fn place_of(&self, p: u32) -> Option<u32> {
        (1..)
            .zip(self.sessions.as_slice())
            .find(|&(_, &q)| q == p)
            .map(|(place, _)| place)
    }

    fn at(&self, i: usize) -> Option<u32> {
        self.sessions.as_slice().get(i).copied()
    }

    fn push(&mut self, p: u32) {
        if !self.sessions.is_full() {
            self.sessions.push(p);
        }
    }

    fn remove(&mut self, p: u32) {
        if let Some(i) = self.index_of(p) {
            self.sessions.pop_at(i);
        }
    }
}

/// Where a session begins, every session in the line gets its place, from 1, as its number, and the new one comes behind them all. One that ends leaves the
/// line and has number 0; the others keep their numbers.
impl State {
    /// Every session in the line gets its number. Had some another?
    pub fn number_all(&mut self) -> bool {
        let mut is_other = false;
        for number in 1..=self.line.count() {
            if let Some(q) = self.line.at(number as usize - 1) {
                is_other |= self.parties.get(q).order != number;
                self.parties.set_order(q, number);
            }
        }
        is_other
    }

    /// Session p comes to the end of the line.
    pub fn add_last(&mut self, p: u32) {
        self.line.push(p);
        self.parties.set_order(p, self.line.count());
    }

    /// Session p leaves the line.
    pub fn leave(&mut self, p: u32) {
        self.line.remove(p);
        self.parties.set_order(p, 0);
    }
}
