// Undos: the clause on take-back chains.
use super::judge::{Judge, Reached};
use super::store::Change;
use super::table::is_holder;

impl Judge<'_, '_> {
    /// "each take-back chain can be undone .. under locks that its session holds": exclusive on the entry and, for a membership, update on its
    /// group, whose key is not 0
    pub fn is_undo_locked(&self, session: u32, i: u32) -> bool {
        let group = self.store.undo_group(i);
        let entry = self.store.entry(i);
        if !is_holder(self.store.exclusive(entry), session as usize) {
            return false;
        }
        self.store.change(i) == Change::Write
            || self.is_reached_descriptor(group)
                && self.store.key(group) != 0
                && is_holder(self.store.update(group), session as usize)
    }

    /// The undo record of the same session, group and entry that is undone last before the one at a place.
    fn newer(&self, place: usize, session: u32, group: u32, entry: u32) -> Option<u32> {
        self.items
            .iter()
            .take(place)
            .filter(|item| {
                item.reached == Reached::Undo { session }
                    && self.store.undo_group(item.record) == group
                    && self.store.entry(item.record) == entry
                    && self.store.change(item.record) != Change::Write
            })
            .last()
            .map(|item| item.record)
    }

    /// "newest first": what was added is there, in the record that is named; what was taken out is not. Once the newer ones are undone, a "taken
    /// out" is a membership again.
    pub fn is_undone(&self, place: usize, session: u32, i: u32) -> bool {
        let group = self.store.undo_group(i);
        let entry = self.store.entry(i);
        let there = match self.newer(place, session, group, entry) {
            None => self.membership_of(group, entry),
            Some(y) if self.store.change(y) == Change::Taken => Some(y),
            Some(_) => None,
        };
        match self.store.change(i) {
            Change::Write => true,
            Change::Added => there == Some(self.store.undo_member(i)),
            Change::Taken => there.is_none(),
            Change::Unknown => false,
        }
    }
}
