// Clauses: the paragraph's clauses in its order, and what each asks of records, parties and entries; last the clauses that M-101 and M-105 add.
use super::asks::are_asked_idle;
use super::holders::{agree_on_entry, are_begun};
use super::judge::{Item, Judge, Reached};
use super::orders::are_apart;
use super::store::MOST_ENTRIES;

/// A clause. Its number is its place, from 0.
#[derive(Clone, Copy, PartialEq, Eq, Debug)]
pub enum Clause {
    Sizes,
    Reached,
    Rising,
    Chained,
    Separated,
    Lowest,
    Fanout,
    Root,
    ZeroStored,
    ZeroEmpty,
    ListedOnce,
    ListedEntry,
    LinkedBack,
    Begun,
    Agreed,
    PinCounts,
    PinsNamed,
    Latches,
    Targets,
    Levels,
    OnPath,
    Codes,
    Arguments,
    Stages,
    EntryLocks,
    LatchedFanout,
    Choice,
    Passed,
    UndoLocks,
    Undone,
    Orders,
    Asked,
}

/// How many clauses there are, and all of them by number.
pub const CLAUSES: u32 = 32;

pub const ALL: [Clause; CLAUSES as usize] = [
    Clause::Sizes,
    Clause::Reached,
    Clause::Rising,
    Clause::Chained,
    Clause::Separated,
    Clause::Lowest,
    Clause::Fanout,
    Clause::Root,
    Clause::ZeroStored,
    Clause::ZeroEmpty,
    Clause::ListedOnce,
    Clause::ListedEntry,
    Clause::LinkedBack,
    Clause::Begun,
    Clause::Agreed,
    Clause::PinCounts,
    Clause::PinsNamed,
    Clause::Latches,
    Clause::Targets,
    Clause::Levels,
    Clause::OnPath,
    Clause::Codes,
    Clause::Arguments,
    Clause::Stages,
    Clause::EntryLocks,
    Clause::LatchedFanout,
    Clause::Choice,
    Clause::Passed,
    Clause::UndoLocks,
    Clause::Undone,
    Clause::Orders,
    Clause::Asked,
];

impl Judge<'_, '_> {
    /// "every record is reached exactly once": there are R in the list, all of them records, none of them twice
    fn is_reached_once(&self, place: usize, i: u32) -> bool {
        let records = self.store.records();
        self.items.len() == records as usize
            && 1 <= i
            && i <= records
            && self.place_of(i) == Some(place)
    }

    /// Does the membership that was reached in a group keep a clause?
    fn member_keeps(&self, clause: Clause, i: u32, group: u32, before: u32) -> bool {
        let entry = self.store.entry(i);
        match clause {
            // "no group lists an entry twice"
            Clause::ListedOnce => self.membership_of(group, entry) == Some(i),
            // "or one outside 1 to M"
            Clause::ListedEntry => 1 <= entry && entry <= self.store.entries(),
            // A membership's link back names the member before it.
            Clause::LinkedBack => self.store.back(i) == before,
            _ => true,
        }
    }

    /// Does what was reached at a place keep a clause?
    fn item_keeps(&self, clause: Clause, place: usize, item: Item) -> bool {
        let i = item.record;
        if clause == Clause::Reached {
            return self.is_reached_once(place, i);
        }
        match item.reached {
            Reached::Node { level, .. } => self.node_keeps(clause, place, i, level),
            Reached::Descriptor { .. } => self.descriptor_keeps(clause, place, i),
            Reached::Membership { group, before } => self.member_keeps(clause, i, group, before),
            Reached::Undo { session } => match clause {
                Clause::UndoLocks => self.is_undo_locked(session, i),
                Clause::Undone => self.is_undone(place, session, i),
                _ => true,
            },
            Reached::Free => true,
        }
    }

    fn all_items_keep(&self, clause: Clause) -> bool {
        let mut items = self.items.iter().enumerate();
        items.all(|(place, item)| self.item_keeps(clause, place, *item))
    }

    fn all_parties_keep(&self, clause: Clause) -> bool {
        let table = self.table;
        let mut parties = table.iter().enumerate();
        parties.all(|(p, x)| self.party_keeps(clause, p, x))
    }

    fn entry_keeps(&self, clause: Clause, e: u32) -> bool {
        let share = self.store.share(e);
        let exclusive = self.store.exclusive(e);
        match clause {
            Clause::Begun => are_begun(self.table, share | exclusive),
            Clause::Agreed => agree_on_entry(share, exclusive),
            _ => true,
        }
    }

    fn all_entries_keep(&self, clause: Clause) -> bool {
        (1..=self.store.entries().min(MOST_ENTRIES)).all(|e| self.entry_keeps(clause, e))
    }

    /// Does the whole keep a clause?
    pub fn keeps(&self, clause: Clause) -> bool {
        match clause {
            Clause::Sizes => self.store.are_sizes(),
            // "the root .. never a descriptor"
            Clause::Root => self.at(0).is_some_and(|item| item.is_node()),
            // "key 0 is stored"
            Clause::ZeroStored => self.descriptor_of(0).is_some(),
            Clause::Orders => are_apart(self.table),
            Clause::Asked => are_asked_idle(self.table),
            Clause::Begun | Clause::Agreed => {
                self.all_items_keep(clause) && self.all_entries_keep(clause)
            }
            _ => self.all_items_keep(clause) && self.all_parties_keep(clause),
        }
    }
}
