// Held: what a store holds. The writes one behind another, and the memberships as a bag in no order.
//
// There is room for as many of both as a journal has records. What has no room is left out.
use crate::records::RECORDS;
use arrayvec::ArrayVec;

#[derive(Clone, Copy, Default)]
struct Write {
    entry: u32,
    value: u32,
}

// In order by key, then by entry.
#[derive(Clone, Copy, Default, PartialEq, Eq, PartialOrd, Ord)]
pub struct Member {
    pub key: u32,
    pub entry: u32,
}

#[derive(Drop)]
pub struct Held {
    writes: ArrayVec<Write, RECORDS>,
    members: ArrayVec<Member, RECORDS>,
}

impl Held {
    pub fn new() -> Self {
        Held {
            writes: ArrayVec::new(),
            members: ArrayVec::new(),
        }
    }

    // The value of an entry: that of its last write, or 0.
    pub fn value(&self, entry: u32) -> u32 {
        self.writes
            .as_slice()
            .iter()
            .rev()
            .find(|write| write.entry == entry)
            .map_or(0, |write| write.value)
    }

    pub fn write(&mut self, entry: u32, value: u32) {
        let _ = self.writes.try_push(Write { entry, value });
    }

    fn place_of(&self, member: Member) -> Option<usize> {
        self.members.as_slice().iter().position(|x| *x == member)
    }

    pub fn has(&self, member: Member) -> bool {
        self.place_of(member).is_some()
    }

    // How many memberships have keys from first to second.
    pub fn count_between(&self, first: u32, second: u32) -> usize {
        self.members
            .as_slice()
            .iter()
            .filter(|member| first <= member.key && member.key <= second)
            .count()
    }

    // Puts a membership in; false if it was there.
    pub fn insert(&mut self, member: Member) -> bool {
        !self.has(member) && self.members.try_push(member).is_ok()
    }

    // Takes a membership out; false if it was not there. The last of the bag comes into its place.
    pub fn remove(&mut self, member: Member) -> bool {
        match self.place_of(member) {
            Some(i) => self.members.swap_pop(i).is_some(),
            None => false,
        }
    }
}
