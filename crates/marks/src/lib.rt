// Marks: which records of a store were met, and as what; with the tests of words that several passes over a store share.
//
// A record has no word for its kind: it is what it was reached as. A walk marks each record that it meets with the kind it was reached
// as, refuses one that is marked already, and counts down how many may still be met. Each function's result, and the marks it
// leaves, EQUAL a definition of specs/Marks; specs/Trail has the walk along a chain of records, defined once for every chain, with the
// lemmas that a loop along a chain needs; specs/Steps has lemmas of the tests. It rests on the crate words.
#![tactic(auto)]

ghost use Rattle.std.specs.Prelude.{◌≡◌, ◌<◌, length};
ghost use Rattle.marks.specs.Marks.{HasRecords, entry_ok, key_ok, mark_number, Met, meet, is_new, start, is_met};

// What a record was reached as.
#[derive(Clone, Copy, PartialEq, Eq, Debug)]
pub enum Mark {
    Node = 1,
    Descriptor = 2,
    Membership = 3,
    Undo = 4,
    Free = 5,
}

impl Mark {
    // The mark's number, which stands at the place of a record that was met.
    fn number(self) -> u8
        ensures { result ≡ mark_number self }
    {
        self as u8
    }

    // Record i is met as this.
    pub fn meet(self, seen: &mut [u8], r: usize, i: usize, left: usize) -> Result<usize, usize>
        requires { r < length seen.old }
        ensures { Met r i left (meet r (mark_number self) (start left seen.old) i) result seen.new }
    {
        meet(seen, r, i, left, self.number())
    }

    // Record i was met as this.
    pub fn is_met(self, seen: &[u8], r: usize, i: usize) -> bool
        requires { r < length seen.now }
        ensures { result ≡ is_met seen.now r i (mark_number self) }
    {
        is_met(seen, r, i, self.number())
    }
}

// A store's words, of m entries and the records 1 to r.
#[derive(Clone, Copy)]
pub struct Records<'a> {
    pub store: &'a [u32],
    pub m: usize,
    pub r: usize,
    pub ghost inside: { HasRecords store.now m r },
}

// A key of a group: neither infinity.
#[tactic(auto, unfolding(crate::specs::Marks::key_ok))]
pub fn key_ok(key: u32) -> bool
    ensures { result ≡ key_ok key }
{
    key != 0 && key != 4294967295
}

// An entry of a store of m entries.
#[tactic(auto, unfolding(crate::specs::Marks::entry_ok))]
pub fn entry_ok(e: u32, m: usize) -> bool
    ensures { result ≡ entry_ok e m }
{
    e != 0 && e as usize <= m
}

// Record i may be met: some may still be, i is one of r records, and it has no mark.
#[tactic(auto, unfolding(crate::specs::Marks::is_new))]
fn is_new(seen: &[u8], r: usize, i: usize, left: usize) -> bool
    requires { r < length seen.now }
    ensures { result ≡ is_new seen.now r i left }
{
    left != 0 && i != 0 && i <= r && seen[i] == 0
}

// Record i is met and marked, and the answer is how many records may still be met; Err with how many might where it is refused. Any slice
// with a place for record r may be lent, so its length stands in the clauses here and above, and in no type.
pub fn meet(seen: &mut [u8], r: usize, i: usize, left: usize, kind: u8) -> Result<usize, usize>
    requires { r < length seen.old }
    ensures { Met r i left (meet r kind (start left seen.old) i) result seen.new }
{
    if !is_new(seen, r, i, left) {
        return Err(left);
    }
    seen[i] = kind;
    Ok(left - 1)
}

// Record i was met as one of this kind.
#[tactic(auto, unfolding(crate::specs::Marks::is_met))]
pub fn is_met(seen: &[u8], r: usize, i: usize, kind: u8) -> bool
    requires { r < length seen.now }
    ensures { result ≡ is_met seen.now r i kind }
{
    i != 0 && i <= r && seen[i] == kind
}
