// Locks: the lock rule, and the words of those that hold long locks.
//
// AGREES is the only source of conflicts. In a holders word session s is bit s - 1. Each function's result EQUALS a definition of
// specs/Holders; specs/Blockers says what they mean: the word of conflicts has exactly the sessions of the list `blockers`,
// and the lock count is the length of the list of holders. All facts are over a number of sessions, of which a word has room
// for 32. It rests on no other crate.
#![tactic(auto)]

ghost use Rattle.std.specs.Prelude.{◌≡◌, cond, ◌≤◌, ◌<◌, length};
ghost use Rattle.locks.specs.Rule.{agrees_of};
ghost use Rattle.locks.specs.Holders.{word_bits, holds, held_by, left_by, holders, conflicts, blockers, first_of, padded};

// The lock rule by kind (entries, groups), the mode that is held and the mode that is asked: 0 share and locate, 1 exclusive and
// update.
pub const AGREES: [[[bool; 2]; 2]; 2] = [
    [[true, false], [false, false]], // entries
    [[true, false], [false, true]], // groups
];

pub fn agrees(kind: usize, held: usize, asked: usize) -> bool
    requires { (kind < 2) × (held < 2) × (asked < 2) }
    ensures { result ≡ agrees_of kind held asked }
{
    AGREES[kind][held][asked]
}

// The source's lock count: how many sessions hold.
pub fn lock_count(word: u32) -> u32
    ensures { result ≡ length (holders word_bits word) }
{
    u32::count_ones(word)
}

// Whether session s holds.
pub fn holds_session(word: u32, s: u32) -> bool
    requires { (1 ≤ s) × (s ≤ word_bits) }
    ensures { result ≡ holds word s }
{
    let own: u32 = 1 << (s - 1);
    word & own != 0
}

// The holders and session s.
pub fn with_session(word: u32, s: u32) -> u32
    requires { (1 ≤ s) × (s ≤ word_bits) }
    ensures { result ≡ held_by s word }
{
    let own: u32 = 1 << (s - 1);
    word | own
}

// The holders but session s.
pub fn without_session(word: u32, s: u32) -> u32
    requires { (1 ≤ s) × (s ≤ word_bits) }
    ensures { result ≡ left_by s word }
{
    let own: u32 = 1 << (s - 1);
    word - (word & own)
}

// The word, or 0 where the modes agree.
fn unless(agree: bool, word: u32) -> u32
    ensures { result ≡ cond agree 0 word }
{
    if agree { 0 } else { word }
}

// The sessions but s that hold in a mode which conflicts with the mode that s asks, given those that hold in the weak mode (share,
// locate) and in the strong one (exclusive, update).
pub fn conflicting(kind: usize, asked: usize, s: u32, weak: u32, strong: u32) -> u32
    requires { (kind < 2) × (asked < 2) × (1 ≤ s) × (s ≤ word_bits) }
    ensures { result ≡ conflicts kind asked s weak strong }
{
    let a = unless(agrees(kind, 0, asked), weak);
    let b = unless(agrees(kind, 1, asked), strong);
    without_session(a | b, s)
}

// The lowest session that holds, or 0 where none does: first_of, which callers' contracts cite, has the 0.
pub fn first_session(word: u32) -> u32
    ensures { result ≡ first_of (holders word_bits word) }
{
    if word == 0 {
        return 0;
    }
    u32::trailing_zeros(word) + 1
}

// The lowest session in the way of s; 0, which names no session of a word of holders, where none is.
pub fn lowest_blocker(kind: usize, asked: usize, s: u32, weak: u32, strong: u32) -> u32
    requires { (kind < 2) × (asked < 2) × (1 ≤ s) × (s ≤ word_bits) }
    ensures { result ≡ first_of (blockers word_bits kind asked s weak strong) }
{
    first_session(conflicting(kind, asked, s, weak, strong))
}

// The sessions that hold, rising, and 0 in the places that are left.
pub fn list_sessions(word: u32) -> [u32; 32]
    ensures { result ≡ padded word_bits (holders word_bits word) }
{
    let mut list = [0u32; 32];
    let mut rest = word;
    for n in 0..32 {
        if rest == 0 {
            return list;
        }
        let t = u32::trailing_zeros(rest);
        list[n] = t + 1;
        let low: u32 = 1 << t;
        rest -= low;
    }
    list
}
