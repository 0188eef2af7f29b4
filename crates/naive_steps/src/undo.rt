// Undo: the log of what abort takes back, in order of time.
use super::state::State;
use arrayvec::ArrayVec;
use naive_tree::events::Event;

/// How many records the log has room for.
pub const UNDO_SLOTS: usize = 4096;

/// A word that a session may change: the value of an entry, or the group of a key, since descriptors come and go.
#[derive(Clone, Copy, PartialEq, Eq, Debug)]
pub enum Word {
    Value(u32),
    Group(u32),
}

/// A record of the log: the session, the event that counts that it is taken back, and the bits that it changed in a word. The other bits of a group are
/// other entries, which other sessions may change meanwhile.
#[derive(Clone, Copy)]
struct Undo {
    session: u32,
    event: Event,
    word: Word,
    bits: u32,
}

impl Default for Undo {
    fn default() -> Undo {
        Undo {
            session: 0,
            event: Event::ValueUndone,
            word: Word::Value(0),
            bits: 0,
        }
    }
}

impl Undo {
    /// Whether two records are of one group, and of two sessions.
    fn meets(self, other: Undo) -> bool {
        matches!(self.word, Word::Group(_))
            && self.word == other.word
            && self.session != other.session
    }
}

#[derive(Default, Drop)]
pub struct UndoLog {
    records: ArrayVec<Undo, UNDO_SLOTS>,
}

impl UndoLog {
    pub fn clear(&mut self) {
        self.records.clear();
    }

    /// How many records the log has.
    pub fn count(&self) -> u32 {
        self.records.len() as u32
    }

    fn at(&self, i: usize) -> Option<Undo> {
        self.records.as_slice().get(i).copied()
    }

    fn push(&mut self, x: Undo) {
        if !self.records.is_full() {
            self.records.push(x);
        }
    }

    /// Does a record before place i meet this one? And does one behind it?
    fn is_met_before(&self, i: usize, x: Undo) -> bool {
        let mut records = self.records.as_slice().iter().take(i);
        records.any(|other| other.meets(x))
    }

    fn is_met_behind(&self, i: usize, x: Undo) -> bool {
        let mut records = self.records.as_slice().iter().skip(i);
        records.any(|other| other.meets(x))
    }
}

impl State {
    fn word(&self, word: Word) -> u32 {
        match word {
            Word::Value(e) => self.entry(e).value,
            Word::Group(key) => self.descriptors.at_or_below(key).map_or(0, |d| d.group),
        }
    }

    fn set_word(&mut self, word: Word, x: u32) {
        match word {
            Word::Value(e) => {
                let mut entry = self.entry(e);
                entry.value = x;
                self.set_entry(e, entry);
            }
            Word::Group(key) => {
                if let Some(mut d) = self.descriptors.at_or_below(key) {
                    d.group = x;
                    self.descriptors.replace(d);
                }
            }
        }
    }

    /// Session p changes a word. The bits that it changes go to the end of the log, with the event that counts that they are taken back.
    pub fn change_word(&mut self, p: u32, event: Event, word: Word, x: u32) {
        let bits = self.word(word) ^ x;
        self.undos.push(Undo {
            session: p,
            event,
            word,
            bits,
        });
        self.set_word(word, x);
    }

    /// Undoes record i of the log: its bits are changed again. Also counts where others' records of the same group stand.
    fn undo(&mut self, i: usize, x: Undo) {
        self.set_word(x.word, self.word(x.word) ^ x.bits);
        self.counts.note(x.event);
        let is_newer = self.undos.is_met_behind(i, x);
        let is_older = self.undos.is_met_before(i, x);
        self.counts.note_if(is_newer, Event::UndoneUnderNewer);
        self.counts.note_if(is_older, Event::UndoneOverOlder);
    }

    /// Takes record i out of the log if it is of session p, and undoes it first where that is asked. Was it?
    fn end_record(&mut self, i: usize, p: u32, is_undone: bool) -> bool {
        let Some(x) = self.undos.at(i) else {
            return false;
        };
        if x.session != p {
            return false;
        }
        if is_undone {
            self.undo(i, x);
        }
        self.undos.records.pop_at(i);
        true
    }

    /// Takes the records of session p out of the log, newest first. Were there any?
    pub fn end_records(&mut self, p: u32, is_undone: bool) -> bool {
        let mut is_some = false;
        for i in (0..self.undos.records.len()).rev() {
            is_some |= self.end_record(i, p, is_undone);
        }
        is_some
    }
}
