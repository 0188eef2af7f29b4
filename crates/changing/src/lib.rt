// Changing: the last step of an insert or remove, at the pinned descriptor of its key.
//
// It waits for others' locate locks of the key; their update locks are not in its way. Then it takes the update lock, and where the entry
// is to come in, or to go out, changes the group and logs that in an undo record; an insert that finds fewer than two free records is refused. The request
// ends in the same step. It promises that the words a step leaves, its party's session record and the answer EQUAL a definition of
// specs/Changing; specs/Rows says that this is the machine's step where the words hold a layout of a sound state (the effects:
// specs/Adding and specs/TakingOut), and specs/Ready that such words have what the code asks for. It rests on members for groups, on
// undo_log for undo records, on scans for the search of a member, on locks for who is in the way, on endings and outcomes for session records and
// answers, on layout and machine for what the words mean.
#![tactic(auto)]

ghost use Rattle.std.specs.Prelude.{◌≡◌};
ghost use Rattle.words.specs.Header.{header_word, free_place};
ghost use Rattle.chain.specs.Free.{Poppable, pop_free};
ghost use Rattle.outcomes.specs.Said.{moved};
ghost use Rattle.members.specs.Members.{Pinned, Takeable, put_member};
ghost use Rattle.changing.specs.Changing.{hold_and_end, change_blocker, added_words, taken_words, keep_step, add_step, take_step_of, refuse_step, has_two, room_step, insert_step, remove_step, code_step, change_step, Ends, AddReady, AddsReady, TakesReady, RoomReady, InsertReady, RemoveReady, CodeReady, ChangeReady, BlockerReady};

use groups::Descriptor;
use kinds::Record;
use outcomes::{Answer, Moved, Refusal};
use sessions::{Code, Session};

// ---- what the rows share

// The lowest session in the way of p's update lock of descriptor d's key, 0 for none.
fn change_blocker(store: &[u32], m: usize, d: usize, p: u32) -> u32
    requires { BlockerReady store.now m d p }
    ensures { result ≡ change_blocker store.now m d p }
{
    let v = Descriptor::load(store, m, d);
    locks::lowest_blocker(1, 1, p, v.locate, v.update)
}

// Session p takes the update lock, and its request lets go of descriptor d.
fn hold_and_end(store: &mut [u32], m: usize, d: usize, p: u32)
    requires { Ends store.old m d p }
    ensures { store.new ≡ hold_and_end store.old m d p }
{
    members::hold_update(store, m, d, p);
    members::unpin_at(store, m, d);
}

// ---- the changes

// The entry comes into the group of descriptor d: the undo record.
fn add_entry(store: &mut [u32], m: usize, x: Session, d: usize) -> usize
    requires { AddReady store.old m x d }
    ensures { (result ≡ header_word (put_member (pop_free store.old m) m d (header_word store.old free_place) x.entry) free_place) × (store.new ≡ added_words store.old m x d) }
{
    let a = chain::pop_free(store, m);
    members::put_member(store, m, d, a, x.entry);
    let own = a as u32;
    let group = d as u32;
    undo_log::log_added(store, m, x.entry, own, group, x.undo)
}

// The entry goes out of the group of descriptor d: its membership i is the undo record.
fn take_entry(store: &mut [u32], m: usize, x: Session, d: usize, i: usize)
    requires { Takeable store.old m d i }
    ensures { store.new ≡ taken_words store.old m x d i }
{
    let group = d as u32;
    members::take_member(store, m, d, i);
    undo_log::log_taken(store, m, i, x.entry, group, x.undo);
}

// At least two records are free.
fn has_two(store: &[u32], m: usize) -> bool
    requires { Poppable store.now m }
    ensures { result ≡ has_two store.now m }
{
    let a = words::free(store) as usize;
    a != 0 && words::word(store, m, a, 0) != 0
}

// ---- rows

fn keep_step(store: &mut [u32], m: usize, p: u32, x: Session, d: usize) -> Moved
    requires { Ends store.old m d p }
    ensures { (store.new ≡ (keep_step store.old m p x d).words) × (result ≡ moved (keep_step store.old m p x d)) }
{
    hold_and_end(store, m, d, p);
    Moved {
        answer: Answer::Done(0),
        session: endings::idle_session(x),
    }
}

fn add_step(store: &mut [u32], m: usize, p: u32, x: Session, d: usize) -> Moved
    requires { AddsReady store.old m p x d }
    ensures { (store.new ≡ (add_step store.old m p x d).words) × (result ≡ moved (add_step store.old m p x d)) }
{
    let b = add_entry(store, m, x, d);
    hold_and_end(store, m, d, p);
    Moved {
        answer: Answer::Done(1),
        session: endings::logged_session(x, b as u32),
    }
}

fn take_step(store: &mut [u32], m: usize, p: u32, x: Session, d: usize, i: usize) -> Moved
    requires { TakesReady store.old m p x d i }
    ensures { (store.new ≡ (take_step_of store.old m p x d i).words) × (result ≡ moved (take_step_of store.old m p x d i)) }
{
    take_entry(store, m, x, d, i);
    hold_and_end(store, m, d, p);
    Moved {
        answer: Answer::Done(1),
        session: endings::logged_session(x, i as u32),
    }
}

fn refuse_step(store: &mut [u32], m: usize, x: Session, d: usize) -> Moved
    requires { Pinned store.old m d }
    ensures { (store.new ≡ (refuse_step store.old m x d).words) × (result ≡ moved (refuse_step store.old m x d)) }
{
    members::unpin_at(store, m, d);
    Moved {
        answer: Answer::Refused(Refusal::Full as u32, 0),
        session: endings::idle_session(x),
    }
}

fn room_step(store: &mut [u32], m: usize, p: u32, x: Session, d: usize) -> Moved
    requires { RoomReady store.old m p x d }
    ensures { (store.new ≡ (room_step store.old m p x d).words) × (result ≡ moved (room_step store.old m p x d)) }
{
    let two = has_two(store, m);
    if two {
        return add_step(store, m, p, x, d);
    }
    refuse_step(store, m, x, d)
}

fn insert_step(store: &mut [u32], m: usize, p: u32, x: Session, d: usize, i: usize) -> Moved
    requires { InsertReady store.old m p x d i }
    ensures { (store.new ≡ (insert_step store.old m p x d i).words) × (result ≡ moved (insert_step store.old m p x d i)) }
{
    if i == 0 {
        return room_step(store, m, p, x, d);
    }
    keep_step(store, m, p, x, d)
}

fn remove_step(store: &mut [u32], m: usize, p: u32, x: Session, d: usize, i: usize) -> Moved
    requires { RemoveReady store.old m p x d i }
    ensures { (store.new ≡ (remove_step store.old m p x d i).words) × (result ≡ moved (remove_step store.old m p x d i)) }
{
    if i == 0 {
        return keep_step(store, m, p, x, d);
    }
    take_step(store, m, p, x, d, i)
}

fn code_step(store: &mut [u32], m: usize, p: u32, x: Session, d: usize, i: usize) -> Moved
    requires { CodeReady store.old m p x d i }
    ensures { (store.new ≡ (code_step store.old m p x d i).words) × (result ≡ moved (code_step store.old m p x d i)) }
{
    if x.code == Code::Insert as u32 {
        return insert_step(store, m, p, x, d, i);
    }
    remove_step(store, m, p, x, d, i)
}

// The step of session p, whose record is x, at the descriptor that it has pinned.
pub fn change_step(store: &mut [u32], m: usize, r: usize, p: u32, x: Session) -> Moved
    requires { ChangeReady store.old m r p x }
    ensures { (store.new ≡ (change_step store.old m r p x).words) × (result ≡ moved (change_step store.old m r p x)) }
{
    let d = x.low as usize;
    let q = change_blocker(store, m, d, p);
    if q != 0 {
        return Moved {
            answer: Answer::Wait(q),
            session: x,
        };
    }
    let first = groups::descriptor_first(store, m, d) as usize;
    let i = scans::find_member(store, m, r, first, x.entry);
    code_step(store, m, p, x, d, i)
}
