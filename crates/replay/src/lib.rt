// Replay: the logical model in arrays, fed requests.
//
// The arrays hold a value for each entry, and the memberships as keys and entries side by side, rising by key and then by entry. `feed` takes a request by
// its code, and the arrays on loan; a Database owns its arrays, and has a method for each of the four requests. Each promises that its answer and the
// arrays after it are those of the model (specs/Held). What the place of a membership is, and that the arrays rise when one is put in or taken out there,
// say Places for any order and Members for keys and entries. It rests on serial for the model and on reshaping for the arrays.
#![tactic(auto)]

ghost use Rattle.std.specs.Prelude.{◌≡◌, ℕ, ◌≤◌, ◌<◌};
ghost use Rattle.serial.specs.Model.{empty};
ghost use Rattle.replay.specs.Held.{Ready, Feeds};
ghost use Rattle.replay.specs.Ready.{Ready-prop};
ghost use Rattle.replay.specs.Members.{Tells, Sorted, place-in, Finds, Inserts, Removes};

// The answer to a request, and how many memberships there are after it.
#[derive(Clone, Copy, PartialEq, Eq, Debug)]
pub struct Fed {
    pub answer: u32,
    pub count: usize,
}

// The model. The arrays are fixed memory, side by side, because keys and entries are moved by reshaping's operations on one array of words.
#[derive(Drop)]
pub struct Database {
    pub values: [u32; 1025],
    pub keys: [u32; 2048],
    pub entries: [u32; 2048],
    // How many memberships are in use.
    pub count: usize,
    ghost ready: { Ready values keys entries count } by { Ready-prop values keys entries count },
}

// ---- the place of a membership

// Whether (k1, e1) stands before (k2, e2): by key, then by entry.
fn is_before(k1: u32, e1: u32, k2: u32, e2: u32) -> bool
    ensures { Tells (k1, e1) (k2, e2) result }
{
    if k1 == k2 { e1 < e2 } else { k1 < k2 }
}

// How many memberships stand before (key, entry).
fn place(keys: &[u32], entries: &[u32], count: usize, key: u32, entry: u32) -> usize
    requires { Sorted keys.now entries.now count }
    ensures { result ≡ place-in keys.now entries.now count (key, entry) }
{
    for i in 0..count {
        if !is_before(keys[i], entries[i], key, entry) {
            return i;
        }
    }
    count
}

// Whether (key, entry), whose place is p, is a membership.
fn is_at(keys: &[u32], entries: &[u32], count: usize, p: usize, key: u32, entry: u32) -> bool
    requires { Sorted keys.now entries.now count × (p ≡ place-in keys.now entries.now count (key, entry)) }
    ensures { Finds keys.now entries.now count (key, entry) p result }
{
    p < count && (keys[p], entries[p]) == (key, entry)
}

// ---- one membership more, one less

// The entry becomes a member of the group of `key`, if it is none. The answer is 1 if it is a new one.
fn insert(keys: &mut [u32], entries: &mut [u32], count: usize, key: u32, entry: u32) -> Fed
    requires { Sorted keys.old entries.old count × (count < 2048) }
    ensures { Inserts key entry keys.old entries.old count result keys.new entries.new }
{
    let p = place(keys, entries, count, key, entry);
    if is_at(keys, entries, count, p, key, entry) {
        return Fed { answer: 0, count };
    }
    reshaping::insert_in(keys, p, key);
    reshaping::insert_in(entries, p, entry);
    Fed {
        answer: 1,
        count: count + 1,
    }
}

// The entry is no member of the group of `key` any more. The answer is 1 if it was one.
fn remove(keys: &mut [u32], entries: &mut [u32], count: usize, key: u32, entry: u32) -> Fed
    requires { Sorted keys.old entries.old count }
    ensures { Removes key entry keys.old entries.old count result keys.new entries.new }
{
    let p = place(keys, entries, count, key, entry);
    if !is_at(keys, entries, count, p, key, entry) {
        return Fed { answer: 0, count };
    }
    reshaping::remove_in(keys, p);
    reshaping::remove_in(entries, p);
    Fed {
        answer: 1,
        count: count - 1,
    }
}

// ---- the four requests

// One request of code 1 to 4, fed to the model in lent arrays.
pub fn feed(
    values: &mut [u32],
    keys: &mut [u32],
    entries: &mut [u32],
    count: usize,
    code: u32,
    entry: u32,
    first: u32,
) -> Fed
    requires { Ready values.old keys.old entries.old count × (count < 2048) × (1 ≤ code) × (code ≤ 4) × (1 ≤ entry) × (entry ≤ 1024) }
    ensures { Feeds code entry first values.old keys.old entries.old count result values.new keys.new entries.new }
{
    match code {
        1 => Fed {
            answer: values[entry as usize],
            count,
        },
        2 => {
            values[entry as usize] = first;
            Fed { answer: 0, count }
        }
        3 => insert(keys, entries, count, first, entry),
        _ => remove(keys, entries, count, first, entry),
    }
}

impl Database {
    ghost use Rattle.replay.specs.Databases.{model_of, FeedsTo};

    // No values but 0, no memberships.
    pub fn new() -> Database
        ensures nothing { result.count ≡ 0 }
        ensures model { model_of result ≡ empty }
    {
        Database {
            values: [0; 1025],
            keys: [0; 2048],
            entries: [0; 2048],
            count: 0,
        }
    }

    // The value of the entry.
    pub fn read(&self, entry: u32) -> u32
        requires { (1 ≤ entry) × (entry ≤ 1024) }
        ensures { (first : ℕ) → FeedsTo 1 entry first self.now result self.now }
    {
        self.values[entry as usize]
    }

    // The entry gets the value. The answer is 0.
    pub fn write(&mut self, entry: u32, value: u32) -> u32
        requires { (1 ≤ entry) × (entry ≤ 1024) }
        ensures { FeedsTo 2 entry value self.old result self.new }
    {
        self.values[entry as usize] = value;
        0
    }

    // The entry becomes a member of the group of `key`, if it is none. The answer is 1 if it is a new one.
    pub fn insert(&mut self, entry: u32, key: u32) -> u32
        requires { (self.old.count < 2048) × (1 ≤ entry) × (entry ≤ 1024) }
        ensures { FeedsTo 3 entry key self.old result self.new }
    {
        let fed = insert(&mut self.keys, &mut self.entries, self.count, key, entry);
        self.count = fed.count;
        fed.answer
    }

    // The entry is no member of the group of `key` any more. The answer is 1 if it was one.
    pub fn remove(&mut self, entry: u32, key: u32) -> u32
        requires { (1 ≤ entry) × (entry ≤ 1024) }
        ensures { FeedsTo 4 entry key self.old result self.new }
    {
        let fed = remove(&mut self.keys, &mut self.entries, self.count, key, entry);
        self.count = fed.count;
        fed.answer
    }
}
