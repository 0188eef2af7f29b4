// Undos: the record that abort needs to undo one change (document 01's take-back).
//
// A session's undo records are chained, the newest first. One is of kind VALUE (the entry had the value that is saved), ADDED (the
// entry came into the descriptor's group by the membership whose record is saved) or TAKEN (the entry went out of the descriptor's
// group). A record of kind TAKEN is the former membership's own record, written over, and becomes a membership again when it
// is undone; so taking out needs no record. An older ADDED may name this very record.
//
// Each function promises that its result, or the store it leaves, EQUALS a definition of specs/Undo.antt (the record's words, and
// one record for each kind). Nothing here undoes anything. It rests on the crates words and kinds.
#![tactic(auto, unfolding(crate::specs::Undo::encode_undo, crate::specs::Undo::decode_undo, crate::specs::Undo::undo_value, crate::specs::Undo::undo_added, crate::specs::Undo::undo_taken))]

ghost use Rattle.std.specs.Prelude.{◌≡◌, length};
ghost use Rattle.words.specs.Store.{HasRecord};
ghost use Rattle.undos.specs.Undo.{undo_kind, decode-encode, undo_at, undo_value, undo_added, undo_taken};

use kinds::Record;

// The kinds. They are words and no enum: the record of a damaged store may have any number here, and loading says each of them.
pub const VALUE: u32 = 1;

pub const ADDED: u32 = 2;

pub const TAKEN: u32 = 3;

// One change to undo: the next older one (0 for none), its kind, its entry, what the kind saves (VALUE: the old value, ADDED: the
// membership's record, TAKEN: nothing, 0), and the descriptor's record (VALUE: 0).
#[derive(Clone, Copy)]
pub struct Undo {
    pub next: u32,
    pub kind: u32,
    pub entry: u32,
    pub saved: u32,
    pub descriptor: u32,
}

// ---- the record

impl Record for Undo {
    ghost kind = { undo_kind };

    ghost is_said = { λ _. Unit {0} };

    ghost reads_back = { λ u _. decode-encode u };

    fn to_words(self) -> [u32; 20] {
        let mut w = [0; 20];
        w[0] = self.next;
        w[1] = self.kind;
        w[2] = self.entry;
        w[3] = self.saved;
        w[4] = self.descriptor;
        w
    }

    fn from_words(part: &[u32]) -> Undo {
        Undo {
            next: part[0],
            kind: part[1],
            entry: part[2],
            saved: part[3],
            descriptor: part[4],
        }
    }
}

// One word of the undo record at record i, with the rest unread: each says its field in its name and in its contract, so that one function
// over the words' numbers would be no plainer.
pub fn undo_next(store: &[u32], m: usize, i: usize) -> u32
    requires { HasRecord store.now m i }
    ensures { result ≡ (undo_at store.now m i).next }
{
    words::word(store, m, i, 0)
}

pub fn undo_kind(store: &[u32], m: usize, i: usize) -> u32
    requires { HasRecord store.now m i }
    ensures { result ≡ (undo_at store.now m i).kind }
{
    words::word(store, m, i, 1)
}

pub fn undo_entry(store: &[u32], m: usize, i: usize) -> u32
    requires { HasRecord store.now m i }
    ensures { result ≡ (undo_at store.now m i).entry }
{
    words::word(store, m, i, 2)
}

pub fn undo_saved(store: &[u32], m: usize, i: usize) -> u32
    requires { HasRecord store.now m i }
    ensures { result ≡ (undo_at store.now m i).saved }
{
    words::word(store, m, i, 3)
}

pub fn undo_descriptor(store: &[u32], m: usize, i: usize) -> u32
    requires { HasRecord store.now m i }
    ensures { result ≡ (undo_at store.now m i).descriptor }
{
    words::word(store, m, i, 4)
}

// ---- by value

impl Undo {
    // The entry had this value before a write.
    pub fn value(next: u32, entry: u32, value: u32) -> Undo
        ensures { result ≡ undo_value next entry value }
    {
        Undo {
            next,
            kind: VALUE,
            entry,
            saved: value,
            descriptor: 0,
        }
    }

    // The entry was added to the descriptor's group, by this membership's record.
    pub fn added(next: u32, entry: u32, membership: u32, descriptor: u32) -> Undo
        ensures { result ≡ undo_added next entry membership descriptor }
    {
        Undo {
            next,
            kind: ADDED,
            entry,
            saved: membership,
            descriptor,
        }
    }

    // The entry was taken out of the descriptor's group.
    pub fn taken(next: u32, entry: u32, descriptor: u32) -> Undo
        ensures { result ≡ undo_taken next entry descriptor }
    {
        Undo {
            next,
            kind: TAKEN,
            entry,
            saved: 0,
            descriptor,
        }
    }
}
