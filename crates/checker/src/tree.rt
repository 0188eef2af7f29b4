// Tree: the clauses on the search tree, node by node and descriptor by descriptor.
use super::clauses::Clause;
use super::holders::{agree_on_group, are_begun};
use super::judge::{Judge, Reached};
use super::table::Stage;

impl Judge<'_, '_> {
    /// The father of what stands at a place, and which son it is.
    fn way_to(&self, place: usize) -> (usize, u32) {
        match self.at(place).map(|item| item.reached) {
            Some(Reached::Node { father, son, .. }) => (father as usize, son),
            Some(Reached::Descriptor { father, son }) => (father as usize, son),
            _ => (0, 0),
        }
    }

    /// Is son i of a node the one where a key is looked for? "Boundary[i-1] < Key <= Boundary[i] if they exist" (002, A5); there are 7 of them.
    fn is_way(&self, node: u32, i: u32, key: u32) -> bool {
        let is_low = 1 < i && key <= self.store.bound(node, i.saturating_sub(1));
        let is_high = i < self.store.count(node) && self.store.bound(node, i) < key;
        !is_low && !is_high
    }

    /// Does the path to a key go through what stands at a place? From there up to the root each is the son where the key is looked for.
    pub fn is_on_path(&self, place: usize, key: u32) -> bool {
        let mut at = place;
        for _ in 0..self.store.records() {
            if at == 0 {
                return true;
            }
            let (father, son) = self.way_to(at);
            let node = self.at(father).map_or(0, |item| item.record);
            if !self.is_way(node, son, key) {
                return false;
            }
            at = father;
        }
        at == 0
    }

    /// "and chained in that order": from the header's first
    fn is_chained(&self, place: usize, i: u32) -> bool {
        let before = place.checked_sub(1).and_then(|k| self.at(k));
        let is_first = !before.is_some_and(|item| item.is_descriptor());
        let is_head = self.store.first_descriptor() == i;
        (is_head || !is_first) && self.store.next(i) == self.next_leaf(place).unwrap_or(0)
    }

    /// "at a lowest node each is the key of the descriptor before it"
    fn are_bounds_keys(&self, node: u32) -> bool {
        let count = self.store.count(node);
        (1..8).all(|i| {
            count <= i || self.store.bound(node, i) == self.store.key(self.store.son(node, i))
        })
    }

    /// "short locks .. match the requests in hand": a latch is that of a party that is at this node
    fn is_latch_right(&self, node: u32) -> bool {
        let table = self.table;
        match self.store.latch(node).checked_sub(1) {
            Some(p) => table
                .get(p as usize)
                .is_some_and(|x| Stage::from(x.stage) == Stage::At && x.at == node),
            None => true,
        }
    }

    /// Does the node in record i, at a place, with so many levels from there down, keep a clause?
    pub fn node_keeps(&self, clause: Clause, place: usize, i: u32, level: u32) -> bool {
        match clause {
            Clause::Lowest => level != 1 || self.are_bounds_keys(i),
            // "a node has 3 to 8 sons, the root 1 to 8"
            Clause::Fanout => {
                let count = self.store.count(i);
                count <= 8 && (3 <= count || place == 0 && 1 <= count)
            }
            Clause::Latches => self.is_latch_right(i),
            _ => true,
        }
    }

    /// Does the descriptor in record i, at a place, keep a clause?
    pub fn descriptor_keeps(&self, clause: Clause, place: usize, i: u32) -> bool {
        let key = self.store.key(i);
        let locate = self.store.locate(i);
        let update = self.store.update(i);
        match clause {
            // "all leaves are descriptors at one depth, keys rising": the last below the upper infinity
            Clause::Rising => key < self.key_above(place),
            Clause::Chained => self.is_chained(place, i),
            // "boundaries separate sons"
            Clause::Separated => self.is_on_path(place, key),
            // key 0 "has no member"
            Clause::ZeroEmpty => key != 0 || self.store.member(i) == 0,
            // "only begun sessions hold", groups with their gaps; "no two holders conflict": a gap has no update holders
            Clause::Begun => are_begun(self.table, locate | update | self.store.gap(i)),
            Clause::Agreed => agree_on_group(locate, update),
            // "seize counts .. match the requests in hand"
            Clause::PinCounts => self.store.pins(i) as usize == self.pins(key),
            _ => true,
        }
    }
}
