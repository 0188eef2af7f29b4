// Keys: the descriptors, rising by key.
use arrayvec::ArrayVec;

/// How many descriptors the model has room for.
pub const SLOTS: usize = 4096;

/// A stored key: its group, bit e - 1 for entry e, and who holds it and the gap behind it, bit s - 1 for session s.
#[derive(Clone, Copy, Default)]
pub struct Descriptor {
    pub key: u32,
    pub group: u32,
    pub locate: u32,
    pub update: u32,
    pub gap: u32,
}

/// The descriptors, rising by key.
#[derive(Default, Drop)]
pub struct Descriptors {
    rows: ArrayVec<Descriptor, SLOTS>,
}

impl Descriptors {
    pub fn clear(&mut self) {
        self.rows.clear();
    }

    /// How many descriptors there are.
    pub fn count(&self) -> u32 {
        self.rows.len() as u32
    }

    /// How many descriptors have this key or a lower one. It is the place of the next one above.
    fn rank(&self, key: u32) -> usize {
        self.rows.as_slice().partition_point(|d| d.key <= key)
    }

    /// The place of the descriptor of this key, or of the one before it where the key is not stored. Key 0 always is.
    fn place(&self, key: u32) -> Option<usize> {
        self.rank(key).checked_sub(1)
    }

    /// The descriptor of this key, or the one before it.
    pub fn at_or_below(&self, key: u32) -> Option<Descriptor> {
        let i = self.place(key)?;
        self.rows.as_slice().get(i).copied()
    }

    /// The descriptor of this key.
    pub fn of(&self, key: u32) -> Option<Descriptor> {
        self.at_or_below(key).filter(|d| d.key == key)
    }

    pub fn is_stored(&self, key: u32) -> bool {
        self.of(key).is_some()
    }

    /// The next descriptor above this key.
    pub fn above(&self, key: u32) -> Option<Descriptor> {
        self.rows.as_slice().get(self.rank(key)).copied()
    }

    /// Holders of a key in locate mode: its descriptor's, or those of the gap that it lies in.
    pub fn locate_holders(&self, key: u32) -> u32 {
        match self.at_or_below(key) {
            Some(d) if d.key == key => d.locate,
            Some(d) => d.gap,
            None => 0,
        }
    }

    /// The gap holders of the descriptor before this key.
    pub fn gap_below(&self, key: u32) -> u32 {
        self.at_or_below(key.wrapping_sub(1)).map_or(0, |d| d.gap)
    }

    /// Puts another descriptor in the place of the one of its key.
    pub fn replace(&mut self, d: Descriptor) {
        if let Some(i) = self.place(d.key) {
            if let Some(row) = self.rows.get_mut(i) {
                if row.key == d.key {
                    *row = d;
                }
            }
        }
    }

    /// Adds a descriptor. Where there is no room left, it is lost.
    pub fn insert(&mut self, d: Descriptor) {
        let i = self.rank(d.key);
        if i <= self.rows.len() && !self.rows.is_full() {
            self.rows.insert(i, d);
        }
    }

    /// Takes the descriptor of this key away.
    pub fn remove(&mut self, key: u32) {
        if let Some(i) = self.place(key) {
            self.rows.pop_at(i);
        }
    }

    /// A session that ends holds nothing.
    pub fn let_go(&mut self, bit: u32) {
        for d in self.rows.as_mut_slice().iter_mut() {
            d.locate &= !bit;
            d.update &= !bit;
            d.gap &= !bit;
        }
    }

    /// The descriptors of the stored keys from first up to second.
    pub fn between(&self, first: u32, second: u32) -> &[Descriptor] {
        let from = self.rows.as_slice().partition_point(|d| d.key < first);
        let end = self.rank(second);
        self.rows.as_slice().get(from..end).unwrap_or(&[])
    }

    /// All descriptors.
    pub fn all(&self) -> &[Descriptor] {
        self.rows.as_slice()
    }
}

/// How many memberships descriptors have.
pub fn count_members(rows: &[Descriptor]) -> u32 {
    rows.iter()
        .fold(0, |n: u32, d| n.wrapping_add(d.group.count_ones()))
}
