// Judge: a store with its table, and the list of the records as they are reached, from the root, the descriptors' members, the sessions' undo chains and
// the free chain.
use super::store::{INFINITY, Store};
use super::table::Table;

/// Room for more items than there can be records.
pub const ROOM: usize = 4100;

/// What a record was reached as. A node or descriptor has the place of its father in the list, and says which son it is, from 1; a node, how many levels of
/// nodes there are from here down. The root is son 0 of place 0. In a chain each has the record before it, 0 for the first.
#[derive(Clone, Copy, PartialEq, Eq, Debug, Default)]
pub enum Reached {
    #[default]
    Free,
    Node { father: u32, son: u32, level: u32 },
    Descriptor { father: u32, son: u32 },
    Membership { group: u32, before: u32 },
    Undo { session: u32 },
}

impl Reached {
    /// A son of this number at a place, with so many levels of nodes from there down: where none is left, it is a descriptor.
    fn son(father: u32, son: u32, level: u32) -> Reached {
        if level == 0 {
            Reached::Descriptor { father, son }
        } else {
            Reached::Node { father, son, level }
        }
    }
}

/// A record that was reached.
#[derive(Clone, Copy, Default)]
pub struct Item {
    pub record: u32,
    pub reached: Reached,
}

impl Item {
    pub fn is_node(self) -> bool {
        matches!(self.reached, Reached::Node { .. })
    }

    pub fn is_descriptor(self) -> bool {
        matches!(self.reached, Reached::Descriptor { .. })
    }

    fn is_member_of(self, of: u32) -> bool {
        matches!(self.reached, Reached::Membership { group, .. } if group == of)
    }
}

/// The list of what is reached: the first items, so many. An array and a count, since one that is moved into the judge as an `ArrayVec` is copied whole,
/// and damage then takes more than three times as long.
#[derive(Clone, Copy)]
pub struct List {
    items: [Item; ROOM],
    count: u32,
}

impl List {
    pub fn new() -> List {
        List {
            items: [Item::default(); ROOM],
            count: 0,
        }
    }

    /// Lists all that is reached, a record as often as it is reached.
    pub fn reach(&mut self, store: &Store<'_>, table: &Table) {
        self.reach_tree(store);
        self.reach_groups(store);
        for (session, x) in (0..).zip(table.iter()).skip(1) {
            self.reach_chain(store, x.undo, |_| Reached::Undo { session });
        }
        let free = store.first_free();
        self.reach_chain(store, free, |_| Reached::Free);
    }

    fn push(&mut self, record: u32, reached: Reached) {
        if let Some(item) = self.items.get_mut(self.count as usize) {
            *item = Item { record, reached };
            self.count += 1;
        }
    }

    fn at(&self, place: u32) -> Option<Item> {
        self.items.get(place as usize).copied()
    }

    /// The tree level by level, each from left to right. The height alone says how deep the leaves lie.
    fn reach_tree(&mut self, store: &Store<'_>) {
        let height = store.height();
        let root = store.root();
        self.push(root, Reached::son(0, 0, height));
        for place in 0..store.records() {
            if let Some(item) = self.at(place) {
                if let Reached::Node { level, .. } = item.reached {
                    self.reach_sons(store, place, item.record, level);
                }
            }
        }
    }

    /// The sons of the node at a place.
    fn reach_sons(&mut self, store: &Store<'_>, place: u32, node: u32, level: u32) {
        for i in 1..=store.count(node).min(8) {
            let son = store.son(node, i);
            self.push(son, Reached::son(place, i, level.saturating_sub(1)));
        }
    }

    /// The members of the descriptors.
    fn reach_groups(&mut self, store: &Store<'_>) {
        for place in 0..self.count {
            if let Some(item) = self.at(place) {
                if item.is_descriptor() {
                    let group = item.record;
                    let member = store.member(group);
                    self.reach_chain(
                        store,
                        member,
                        |before| Reached::Membership { group, before },
                    );
                }
            }
        }
    }

    /// No chain has more than R records.
    fn reach_chain<F: Fn(u32) -> Reached>(&mut self, store: &Store<'_>, first: u32, reached: F)
        requires { F.IsAlwaysCallable reached }
    {
        let mut before = 0;
        let mut x = first;
        for _ in 0..store.records() {
            if x == 0 {
                return;
            }
            self.push(x, reached(before));
            before = x;
            x = store.next(x);
        }
    }

    /// What was reached, in this order.
    pub fn items(&self) -> &[Item] {
        self.items.get(..self.count as usize).unwrap_or(&[])
    }
}

/// A store with its session table, and what was reached.
#[derive(Clone, Copy)]
pub struct Judge<'a, 'l> {
    pub store: Store<'a>,
    pub table: &'a Table,
    pub items: &'l [Item],
}

impl Judge<'_, '_> {
    pub fn at(&self, place: usize) -> Option<Item> {
        self.items.get(place).copied()
    }

    /// The place where a record was reached first.
    pub fn place_of(&self, record: u32) -> Option<usize> {
        self.items.iter().position(|item| item.record == record)
    }

    /// The place where a record was reached first as a node.
    pub fn place_of_node(&self, record: u32) -> Option<usize> {
        self.items
            .iter()
            .position(|item| item.record == record && item.is_node())
    }

    pub fn is_reached_descriptor(&self, record: u32) -> bool {
        self.items
            .iter()
            .any(|item| item.record == record && item.is_descriptor())
    }

    /// The first descriptor of a key. What was reached as record 0 is none.
    pub fn descriptor_of(&self, key: u32) -> Option<u32> {
        self.items
            .iter()
            .find(|item| item.is_descriptor() && self.store.key(item.record) == key)
            .map(|item| item.record)
            .filter(|&i| i != 0)
    }

    /// The first membership of an entry in a group.
    pub fn membership_of(&self, group: u32, entry: u32) -> Option<u32> {
        self.items
            .iter()
            .find(|item| { item.is_member_of(group) && self.store.entry(item.record) == entry })
            .map(|item| item.record)
    }

    /// The next descriptor to the right of a leaf.
    pub fn next_leaf(&self, place: usize) -> Option<u32> {
        self.at(place.saturating_add(1))
            .filter(|item| item.is_descriptor() && item.record != 0)
            .map(|item| item.record)
    }

    /// The next stored key above that of a leaf.
    pub fn key_above(&self, place: usize) -> u32 {
        match self.next_leaf(place) {
            Some(next) => self.store.key(next),
            None => INFINITY,
        }
    }
}
