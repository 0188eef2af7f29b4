// Groups: the two kinds of record that make a group, and the operations on them by value.
//
// A descriptor has a stored key, the next descriptor by key, its locate, update and gap holders, its pins (document 01's seize count)
// and the record of its first member, 0 for none. A membership has the next member, the member before it (0: it is the first),
// and its entry; the link back makes taking one out by its record a matter of its neighbours only.
//
// Each function promises that its result, or the store it leaves, EQUALS a definition of specs/: Descriptor and Membership (the
// record's words, what a descriptor that is written reads as, the operations). Words of holders are handed in as numbers; nothing here looks
// at a bit, walks a chain or says what a lock is. It rests on the crates words and kinds.
#![tactic(auto, unfolding(crate::specs::Descriptor::encode_descriptor, crate::specs::Descriptor::decode_descriptor, crate::specs::Descriptor::made_in, crate::specs::Descriptor::with_next_descriptor, crate::specs::Descriptor::with_first_member, crate::specs::Descriptor::put_pins, crate::specs::Descriptor::with_holders, crate::specs::Descriptor::removable, crate::specs::Membership::encode_membership, crate::specs::Membership::decode_membership, crate::specs::Membership::with_next_member, crate::specs::Membership::with_member_before))]

ghost use Rattle.std.specs.Prelude.{◌≡◌, length};
ghost use Rattle.words.specs.Store.{HasRecord};
ghost use Rattle.groups.specs.Descriptor.{descriptor_kind, decode-encode as descriptor_back, descriptor_at, made_in, with_next_descriptor, with_first_member, put_pins, with_holders, grant_locate, grant_update, grant_gap, removable};
ghost use Rattle.groups.specs.Membership.{membership_kind, decode-encode as membership_back, membership_at, with_next_member, with_member_before};

use kinds::Record;

// A group descriptor; pins is document 01's seize count.
#[derive(Clone, Copy)]
pub struct Descriptor {
    pub next: u32,
    pub key: u32,
    pub locate: u32,
    pub update: u32,
    pub gap: u32,
    pub pins: u32,
    pub first: u32,
}

// An entry's membership in a group.
#[derive(Clone, Copy)]
pub struct Membership {
    pub next: u32,
    pub before: u32,
    pub entry: u32,
}

// ---- the descriptor's record

impl Record for Descriptor {
    ghost kind = { descriptor_kind };

    ghost is_said = { λ _. Unit {0} };

    ghost reads_back = { λ d _. descriptor_back d };

    fn to_words(self) -> [u32; 20] {
        let mut w = [0; 20];
        w[0] = self.next;
        w[1] = self.key;
        w[2] = self.locate;
        w[3] = self.update;
        w[4] = self.gap;
        w[5] = self.pins;
        w[6] = self.first;
        w
    }

    fn from_words(part: &[u32]) -> Descriptor {
        Descriptor {
            next: part[0],
            key: part[1],
            locate: part[2],
            update: part[3],
            gap: part[4],
            pins: part[5],
            first: part[6],
        }
    }
}

// Descriptor i gets another number of pins.
pub fn set_pins(store: &mut [u32], m: usize, i: usize, pins: u32)
    requires { HasRecord store.old m i }
    ensures { store.new ≡ put_pins store.old m i pins }
{
    words::set_word(store, m, i, 5, pins);
}

// One word of the descriptor at record i, with the rest unread: each says its field in its name and in its contract, so that one function over
// the words' numbers would be no plainer.
pub fn descriptor_next(store: &[u32], m: usize, i: usize) -> u32
    requires { HasRecord store.now m i }
    ensures { result ≡ (descriptor_at store.now m i).next }
{
    words::word(store, m, i, 0)
}

pub fn descriptor_key(store: &[u32], m: usize, i: usize) -> u32
    requires { HasRecord store.now m i }
    ensures { result ≡ (descriptor_at store.now m i).key }
{
    words::word(store, m, i, 1)
}

pub fn descriptor_locate(store: &[u32], m: usize, i: usize) -> u32
    requires { HasRecord store.now m i }
    ensures { result ≡ (descriptor_at store.now m i).locate }
{
    words::word(store, m, i, 2)
}

pub fn descriptor_update(store: &[u32], m: usize, i: usize) -> u32
    requires { HasRecord store.now m i }
    ensures { result ≡ (descriptor_at store.now m i).update }
{
    words::word(store, m, i, 3)
}

pub fn descriptor_gap(store: &[u32], m: usize, i: usize) -> u32
    requires { HasRecord store.now m i }
    ensures { result ≡ (descriptor_at store.now m i).gap }
{
    words::word(store, m, i, 4)
}

pub fn descriptor_pins(store: &[u32], m: usize, i: usize) -> u32
    requires { HasRecord store.now m i }
    ensures { result ≡ (descriptor_at store.now m i).pins }
{
    words::word(store, m, i, 5)
}

pub fn descriptor_first(store: &[u32], m: usize, i: usize) -> u32
    requires { HasRecord store.now m i }
    ensures { result ≡ (descriptor_at store.now m i).first }
{
    words::word(store, m, i, 6)
}

// ---- descriptors by value

impl Descriptor {
    // A descriptor made in a gap: the gap's holders hold it in locate mode and its own gap, it has no member, and its maker pins it.
    pub fn made_in(gap: u32, key: u32, next: u32) -> Descriptor
        ensures { result ≡ made_in gap key next }
    {
        Descriptor {
            next,
            key,
            locate: gap,
            update: 0,
            gap,
            pins: 1,
            first: 0,
        }
    }

    // Another descriptor follows by key.
    pub fn with_next_descriptor(self, next: u32) -> Descriptor
        ensures { result ≡ with_next_descriptor self next }
    {
        Descriptor { next, ..self }
    }

    // Another member comes first; 0 for none.
    pub fn with_first_member(self, first: u32) -> Descriptor
        ensures { result ≡ with_first_member self first }
    {
        Descriptor { first, ..self }
    }

    // These hold the key in locate mode.
    pub fn grant_locate(self, holders: u32) -> Descriptor
        ensures { result ≡ grant_locate self holders }
    {
        Descriptor {
            locate: holders,
            ..self
        }
    }

    // These hold the key in update mode.
    pub fn grant_update(self, holders: u32) -> Descriptor
        ensures { result ≡ grant_update self holders }
    {
        Descriptor {
            update: holders,
            ..self
        }
    }

    // These hold the gap behind the key.
    pub fn grant_gap(self, holders: u32) -> Descriptor
        ensures { result ≡ grant_gap self holders }
    {
        Descriptor {
            gap: holders,
            ..self
        }
    }

    // A session's locks end: the three words of holders without it.
    pub fn release_session(self, locate: u32, update: u32, gap: u32) -> Descriptor
        ensures { result ≡ with_holders self locate update gap }
    {
        Descriptor {
            locate,
            update,
            gap,
            ..self
        }
    }

    // Tidy may remove the descriptor; before is the gap holders of the descriptor before it.
    pub fn is_removable(self, before: u32) -> bool
        ensures { result ≡ removable self before }
    {
        self.key != 0
            && self.pins == 0
            && self.first == 0
            && self.update == 0
            && self.locate == before
            && self.gap == before
    }
}

// ---- the membership's record

impl Record for Membership {
    ghost kind = { membership_kind };

    ghost is_said = { λ _. Unit {0} };

    ghost reads_back = { λ b _. membership_back b };

    fn to_words(self) -> [u32; 20] {
        let mut w = [0; 20];
        w[0] = self.next;
        w[1] = self.before;
        w[2] = self.entry;
        w
    }

    fn from_words(part: &[u32]) -> Membership {
        Membership {
            next: part[0],
            before: part[1],
            entry: part[2],
        }
    }
}

// One word of the membership at record i, with the rest unread: each says its field in its name and in its contract, so that one function over
// the words' numbers would be no plainer.
pub fn membership_next(store: &[u32], m: usize, i: usize) -> u32
    requires { HasRecord store.now m i }
    ensures { result ≡ (membership_at store.now m i).next }
{
    words::word(store, m, i, 0)
}

pub fn membership_before(store: &[u32], m: usize, i: usize) -> u32
    requires { HasRecord store.now m i }
    ensures { result ≡ (membership_at store.now m i).before }
{
    words::word(store, m, i, 1)
}

pub fn membership_entry(store: &[u32], m: usize, i: usize) -> u32
    requires { HasRecord store.now m i }
    ensures { result ≡ (membership_at store.now m i).entry }
{
    words::word(store, m, i, 2)
}

// ---- memberships by value

impl Membership {
    // Another member follows; 0 for none.
    pub fn with_next_member(self, next: u32) -> Membership
        ensures { result ≡ with_next_member self next }
    {
        Membership { next, ..self }
    }

    // Another member comes before; 0 for none.
    pub fn with_member_before(self, before: u32) -> Membership
        ensures { result ≡ with_member_before self before }
    {
        Membership { before, ..self }
    }
}
