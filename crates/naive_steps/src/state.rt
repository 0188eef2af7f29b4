// State: all that the second model keeps.
use super::line::Line;
use super::party::{Parties, Refusal, Stage};
use super::undo::UndoLog;
use naive_tree::events::{Counts, Event};
use naive_tree::keys::{Descriptor, Descriptors, count_members};
use naive_tree::tree::Tree;

/// How many entries the model has room for.
pub const ENTRY_SLOTS: usize = 32;

/// An entry: its value, and who holds it shared and exclusive, session s as bit s - 1.
#[derive(Clone, Copy, Default)]
pub struct Entry {
    pub value: u32,
    pub share: u32,
    pub exclusive: u32,
}

#[derive(Drop)]
pub struct State {
    /// How many records there are.
    pub records: u32,
    pub entries: [Entry; ENTRY_SLOTS],
    pub descriptors: Descriptors,
    pub tree: Tree,
    pub parties: Parties,
    pub line: Line,
    pub undos: UndoLog,
    pub counts: Counts,
}

impl State {
    /// No record and no node.
    pub fn new() -> State {
        State {
            records: 0,
            entries: [Entry::default(); ENTRY_SLOTS],
            descriptors: Default::default(),
            tree: Tree::new(),
            parties: Parties::new(),
            line: Default::default(),
            undos: Default::default(),
            counts: Counts::new(),
        }
    }

    /// A fresh store of so many records, with a root and key 0. The counts go on.
    pub fn reset(&mut self, records: u32) {
        self.records = records;
        self.entries = [Entry::default(); ENTRY_SLOTS];
        self.descriptors.clear();
        self.parties = Parties::new();
        self.line.clear();
        self.undos.clear();
        self.tree.reset();
        self.descriptors.insert(Descriptor::default());
        let root = self.tree.root();
        self.tree.insert_key(root, 0);
    }

    /// Entry e, from 1 on. One that there is not has value 0 and no holders.
    pub fn entry(&self, e: u32) -> Entry {
        match e.checked_sub(1) {
            Some(i) => self.entries.get(i as usize).copied().unwrap_or_default(),
            None => Entry::default(),
        }
    }

    pub fn set_entry(&mut self, e: u32, x: Entry) {
        if let Some(i) = e.checked_sub(1) {
            if let Some(entry) = self.entries.get_mut(i as usize) {
                *entry = x;
            }
        }
    }

    /// How many records are free: those that are no node, no descriptor, no membership and no undo record.
    pub fn free(&self) -> u32 {
        let members = count_members(self.descriptors.all());
        self.records
            .wrapping_sub(self.descriptors.count())
            .wrapping_sub(members)
            .wrapping_sub(self.tree.count())
            .wrapping_sub(self.undos.count())
    }

    /// Refuses where fewer records are free.
    pub fn lack(&self, need: u32) -> Option<Refusal> {
        if need <= self.free() {
            None
        } else {
            Some(Refusal::Records)
        }
    }

    /// The end of a step: an event is counted, and the party comes to a stage. A latch and pins follow from the stage, and so end with it.
    pub fn reach(&mut self, p: u32, stage: Stage, event: Option<Event>) {
        if let Some(event) = event {
            self.counts.note(event);
        }
        self.parties.set_stage(p, stage);
    }
}

impl Default for State {
    fn default() -> State {
        State::new()
    }
}
