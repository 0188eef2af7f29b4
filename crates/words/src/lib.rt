// Words: where the parts of a store lie in its words, and how they are read and written.
//
// A store is 16 header words, then ENTRY_WORDS words an entry, then records of 20 words, numbered from 1 (docs/STORE.md).
// Other crates ask this one where a word lies. It promises for each function that its result, or the store it leaves, EQUALS a
// definition of specs/: Sizes (how many records there are), Window (a run of words of a list, read and replaced), Store (the
// records), Header, Entries. Frames says what a write of one part leaves of every other part. Nothing here says what the words
// mean. It rests on no other crate.
//
// The words of a store and m, its number of entries, are two parameters here and above, and no struct: what C lends is a slice, each
// function lends it on, and the contracts are equations of lists of words, which a struct would only wrap.
#![tactic(auto)]

ghost use Rattle.std.specs.Prelude.{◌≡◌, ◌≤◌, ◌<◌, length, set};
ghost use Rattle.words.specs.Sizes.{records_for};
ghost use Rattle.words.specs.Store.{entry_words, base_of, HasRecord, record_at, put_record, word_of, put_word_of};
ghost use Rattle.words.specs.Header.{header_word, put_header_word, entries_place, records_place, root_place, height_place, first_place, free_place};
ghost use Rattle.words.specs.Entries.{HasEntry, entry_place, entry_word, put_entry_word};
ghost use Rattle.words.specs.Fields.{field_number};

// The words of an entry: value, share holders, exclusive holders.
pub const ENTRY_WORDS: usize = 3;

// How many records a store of so many words has, for m entries.
pub fn records_for(m: usize, words: usize) -> usize
    requires { m ≤ 1024 }
    ensures { result ≡ records_for m words }
{
    let used = 16 + ENTRY_WORDS * m;
    (words.saturating_sub(used) / 20).min(4096)
}

// Where record i starts in a store of m entries.
pub fn base(m: usize, i: usize) -> usize
    requires { (m ≤ 1024) × (1 ≤ i) × (i ≤ 4096) }
    ensures { result ≡ base_of m i }
{
    16 + ENTRY_WORDS * m + 20 * (i - 1)
}

// Writes 20 words over a lent part.
pub fn save_words(part: &mut [u32], w: [u32; 20])
    requires { length part.old ≡ 20 }
    ensures { part.new ≡ w }
{
    part.copy_from_slice(&w);
}

// Writes word k of a record whose 20 words are lent; its other words stay.
pub fn save_word(part: &mut [u32], k: usize, w: u32)
    requires { (length part.old ≡ 20) × (k < 20) }
    ensures { part.new ≡ set part.old k w }
{
    part[k] = w;
}

// Word k of record i, read and written where it lies.
pub fn word(store: &[u32], m: usize, i: usize, k: usize) -> u32
    requires { HasRecord store.now m i × (k < 20) }
    ensures { result ≡ word_of store.now m i k }
{
    let at = base(m, i) + k;
    store[at]
}

pub fn set_word(store: &mut [u32], m: usize, i: usize, k: usize, w: u32)
    requires { HasRecord store.old m i × (k < 20) }
    ensures { store.new ≡ put_word_of store.old m i k w }
{
    let at = base(m, i);
    save_word(&mut store[at..at + 20], k, w);
}

// The 20 words of record i, read and written where they lie.
pub fn record_words(store: &[u32], m: usize, i: usize) -> &[u32]
    requires { HasRecord store.now m i }
    ensures { result.now ≡ record_at store.now m i }
{
    let at = base(m, i);
    &store[at..at + 20]
}

pub fn set_record_words(store: &mut [u32], m: usize, i: usize, w: [u32; 20])
    requires { HasRecord store.old m i }
    ensures { store.new ≡ put_record store.old m i w }
{
    let at = base(m, i);
    save_words(&mut store[at..at + 20], w);
}

// Header word k, read and written. The six that have names are read and written by them below: each says its word in its name and in
// its contract, so that callers with numbers would be no plainer.
pub fn header(store: &[u32], k: usize) -> u32
    requires { (16 ≤ length store.now) × (k < 16) }
    ensures { result ≡ header_word store.now k }
{
    store[k]
}

pub fn set_header(store: &mut [u32], k: usize, w: u32)
    requires { (16 ≤ length store.old) × (k < 16) }
    ensures { store.new ≡ put_header_word store.old k w }
{
    store[k] = w;
}

// M, the number of entries.
pub fn entries(store: &[u32]) -> u32
    requires { 16 ≤ length store.now }
    ensures { result ≡ header_word store.now entries_place }
{
    header(store, 0)
}

pub fn set_entries(store: &mut [u32], w: u32)
    requires { 16 ≤ length store.old }
    ensures { store.new ≡ put_header_word store.old entries_place w }
{
    set_header(store, 0, w);
}

// R, the number of records.
pub fn records(store: &[u32]) -> u32
    requires { 16 ≤ length store.now }
    ensures { result ≡ header_word store.now records_place }
{
    header(store, 1)
}

pub fn set_records(store: &mut [u32], w: u32)
    requires { 16 ≤ length store.old }
    ensures { store.new ≡ put_header_word store.old records_place w }
{
    set_header(store, 1, w);
}

// The record of the root node.
pub fn root(store: &[u32]) -> u32
    requires { 16 ≤ length store.now }
    ensures { result ≡ header_word store.now root_place }
{
    header(store, 2)
}

pub fn set_root(store: &mut [u32], w: u32)
    requires { 16 ≤ length store.old }
    ensures { store.new ≡ put_header_word store.old root_place w }
{
    set_header(store, 2, w);
}

// The levels of nodes.
pub fn height(store: &[u32]) -> u32
    requires { 16 ≤ length store.now }
    ensures { result ≡ header_word store.now height_place }
{
    header(store, 3)
}

pub fn set_height(store: &mut [u32], w: u32)
    requires { 16 ≤ length store.old }
    ensures { store.new ≡ put_header_word store.old height_place w }
{
    set_header(store, 3, w);
}

// The record of the descriptor of key 0.
pub fn first(store: &[u32]) -> u32
    requires { 16 ≤ length store.now }
    ensures { result ≡ header_word store.now first_place }
{
    header(store, 4)
}

pub fn set_first(store: &mut [u32], w: u32)
    requires { 16 ≤ length store.old }
    ensures { store.new ≡ put_header_word store.old first_place w }
{
    set_header(store, 4, w);
}

// The first free record, or 0.
pub fn free(store: &[u32]) -> u32
    requires { 16 ≤ length store.now }
    ensures { result ≡ header_word store.now free_place }
{
    header(store, 5)
}

pub fn set_free(store: &mut [u32], w: u32)
    requires { 16 ≤ length store.old }
    ensures { store.new ≡ put_header_word store.old free_place w }
{
    set_header(store, 5, w);
}

// A word of an entry: its value, its share holders, its exclusive holders.
#[derive(Clone, Copy, PartialEq, Eq, Debug)]
pub enum Field {
    Value,
    Share,
    Exclusive,
}

// Where a word of entry e lies.
fn entry_place(e: usize, field: Field) -> usize
    requires { (1 ≤ e) × (e ≤ 1024) }
    ensures { result ≡ entry_place e (field_number field) }
{
    let place = match field {
        Field::Value => 0,
        Field::Share => 1,
        Field::Exclusive => 2,
    };
    16 + ENTRY_WORDS * (e - 1) + place
}

// A word of entry e, read and written.
pub fn entry_word(store: &[u32], e: usize, field: Field) -> u32
    requires { HasEntry store.now e }
    ensures { result ≡ entry_word store.now e (field_number field) }
{
    let at = entry_place(e, field);
    store[at]
}

pub fn set_entry_word(store: &mut [u32], e: usize, field: Field, w: u32)
    requires { HasEntry store.old e }
    ensures { store.new ≡ put_entry_word store.old e (field_number field) w }
{
    let at = entry_place(e, field);
    store[at] = w;
}
