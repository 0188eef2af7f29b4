// Looking: what a host reads of a store without a call: how many records are free, and who holds a key.
//
// Each tests store and table once and writes nothing. It promises the whole answer (specs/Told): refused 2 exactly if store and table are not sound; else the
// machine's count of free records, or the holders of demand 2, of stored and of empty keys, and 9 for a key that is an infinity. specs/Looking has what the code
// reads of the words, specs/Halves how two words of holders fit in one, specs/Read that what is read is what the words mean. It rests on soundness for the test,
// on scans and groups for the walks, on marks for the test of a key, on promises for the holders.
#![tactic(auto)]

ghost use Rattle.std.specs.Prelude.{◌≡◌};
ghost use Rattle.words.specs.Store.{HasRecord};
ghost use Rattle.meaning.specs.Sound.{Sound};
ghost use Rattle.outcomes.specs.Said.{said};
ghost use Rattle.looking.specs.Halves.{halves};
ghost use Rattle.looking.specs.Looking.{free_count, held_at, held_of, FreeReady, KeyReady};
ghost use Rattle.looking.specs.Told.{FreeTold, HoldersTold, KeyTold};

use outcomes::{Answer, Refusal};
use sessions::{PARTIES, Session};

// ---- free records

// How many records the free chain has: it is counted as a group's members are, along word 0.
fn free_count(store: &[u32]) -> u32
    requires { FreeReady store.now }
    ensures { result ≡ free_count store.now }
{
    let m = words::entries(store) as usize;
    let r = words::records(store) as usize;
    let first = words::free(store) as usize;
    scans::count_members(store, m, r, first) as u32
}

// The free records.
pub fn free(store: &[u32], t: [Session; PARTIES]) -> Answer
    ensures { FreeTold store.now t (said result) }
{
    if !soundness::is_sound(store, t) {
        return Answer::from(Refusal::Unsound);
    }
    Answer::Done(free_count(store))
}

// ---- the holders of a key

// How many numbers half a word has room for.
const HALF: u32 = 65536;

// Two words of holders in one; of each, the half that has the sessions.
fn both(low: u32, high: u32) -> u32
    ensures { result ≡ halves low high }
{
    low % HALF + high % HALF * HALF
}

// The holders of a key, d the last descriptor whose key is at most this: its own holders, or those of the gap behind it.
fn held_at(store: &[u32], m: usize, d: usize, key: u32) -> u32
    requires { HasRecord store.now m d }
    ensures { result ≡ held_at store.now m d key }
{
    if groups::descriptor_key(store, m, d) == key {
        let locate = groups::descriptor_locate(store, m, d);
        let update = groups::descriptor_update(store, m, d);
        return both(locate, update);
    }
    let gap = groups::descriptor_gap(store, m, d);
    both(gap, 0)
}

fn held_of(store: &[u32], key: u32) -> u32
    requires { KeyReady store.now key }
    ensures { result ≡ held_of store.now key }
{
    let m = words::entries(store) as usize;
    let r = words::records(store) as usize;
    let first = words::first(store) as usize;
    let d = scans::last_upto(store, m, r, first, key);
    held_at(store, m, d, key)
}

fn holders_checked(store: &[u32], t: [Session; PARTIES], key: u32) -> Answer
    requires { Sound store.now t }
    ensures { KeyTold key store.now t (said result) }
{
    if !marks::key_ok(key) {
        return Answer::from(Refusal::Key);
    }
    Answer::Done(held_of(store, key))
}

// The sessions that hold a key, stored or not: those in locate mode in the lower half, those in update mode in the upper one.
pub fn holders(store: &[u32], t: [Session; PARTIES], key: u32) -> Answer
    ensures { HoldersTold key store.now t (said result) }
{
    if !soundness::is_sound(store, t) {
        return Answer::from(Refusal::Unsound);
    }
    holders_checked(store, t, key)
}
