// Arriving: the steps of a descent that stands at its lowest node.
//
// A session pins the descriptor of its key, or makes it in the gap before it, and goes on as its request says; the housekeeper removes its
// choice, or leaves it. In each the node is released. It promises that the words a step leaves, its party's session record and the answer
// EQUAL a definition of specs/Arriving; specs/Moving says that this is the machine's step, where the words hold a layout of a sound state.
// It rests on scans for the descriptor before a key, on descents for nodes, on members and groups for descriptors, on chain for free
// records, on finishing for requests that end.
#![tactic(auto)]

ghost use Rattle.std.specs.Prelude.{◌≡◌};
ghost use Rattle.words.specs.Store.{HasRecord};
ghost use Rattle.words.specs.Header.{header_word, free_place};
ghost use Rattle.outcomes.specs.Said.{moved};
ghost use Rattle.arriving.specs.Arriving.{to_change, to_second, to_take, arrived_at, pin_step, pred_of, make_at, made_step, make_step, tidy_at, gone_step, left_step, tidy_step, session_step, lowest_step_of};
ghost use Rattle.arriving.specs.Ready.{PredReady, PinReady, MakeAble, MadeReady, MakeReady, TidyAble, TidyReady, SessionReady, LowestReady};

use groups::Descriptor;
use kinds::Record;
use outcomes::{Answer, Moved, Refusal};
use sessions::{Code, Session, Stage};

// ---- the session record after a descent, whose descriptor is at record d

// An insert or remove changes the group.
fn to_change(mut x: Session, d: u32) -> Session
    ensures { result ≡ to_change x d }
{
    x.stage = Stage::Change as u32;
    x.low = d;
    x
}

// A locate goes on to second.
fn to_second(mut x: Session, d: u32) -> Session
    ensures { result ≡ to_second x d }
{
    x.stage = Stage::EnterRoot as u32;
    x.target = x.second;
    x.low = d;
    x
}

// A locate takes its range: d is first's own, or second's.
fn to_take(mut x: Session, d: u32) -> Session
    ensures { result ≡ to_take x d }
{
    if x.first == x.second {
        x.low = d;
    } else {
        x.high = d;
    }
    x.stage = Stage::Take as u32;
    x.last = 0;
    x
}

fn arrive_at(x: Session, d: u32) -> Session
    ensures { result ≡ arrived_at x d }
{
    if x.code != Code::Locate as u32 {
        return to_change(x, d);
    }
    if x.target == x.second {
        return to_take(x, d);
    }
    to_second(x, d)
}

// ---- descriptors

// The descriptor before a key.
fn pred_of(store: &[u32], m: usize, r: usize, key: u32) -> usize
    requires { PredReady store.now m r key }
    ensures { result ≡ pred_of store.now m r key }
{
    let first = words::first(store) as usize;
    scans::last_upto(store, m, r, first, key - 1)
}

// ---- a stored key

// The session pins the descriptor on the path.
pub fn pin_step(store: &mut [u32], m: usize, x: Session) -> Moved
    requires { PinReady store.old m x }
    ensures { (store.new ≡ (pin_step store.old m x).words) × (result ≡ moved (pin_step store.old m x)) }
{
    let at = x.at as usize;
    let d = descents::son_toward(store, m, at, x.target);
    nodes::set_latch(store, m, at, 0);
    members::pin_at(store, m, d);
    Moved {
        answer: Answer::More,
        session: arrive_at(x, d as u32),
    }
}

// ---- a key that is not stored

// A free record becomes the descriptor, behind the one at record b; its number.
fn make_at(store: &mut [u32], m: usize, at: usize, key: u32, b: usize) -> usize
    requires { MakeAble store.old m at key b }
    ensures { (result ≡ header_word store.old free_place) × (store.new ≡ make_at store.old m at key b) }
{
    let d = Descriptor::load(store, m, b);
    let a = chain::pop_free(store, m);
    let new = Descriptor::made_in(d.gap, key, d.next);
    new.write(store, m, a);
    d.with_next_descriptor(a as u32).write(store, m, b); // linked
    descents::insert_leaf(store, m, at, key, a as u32);
    a
}

fn made_step(store: &mut [u32], m: usize, r: usize, x: Session) -> Moved
    requires { MadeReady store.old m r x }
    ensures { (store.new ≡ (made_step store.old m r x).words) × (result ≡ moved (made_step store.old m r x)) }
{
    let at = x.at as usize;
    let b = pred_of(store, m, r, x.target);
    let a = make_at(store, m, at, x.target, b);
    Moved {
        answer: Answer::More,
        session: arrive_at(x, a as u32),
    }
}

// The session makes the descriptor, or is refused where no record is free.
pub fn make_step(store: &mut [u32], m: usize, r: usize, x: Session) -> Moved
    requires { MakeReady store.old m r x }
    ensures { (store.new ≡ (make_step store.old m r x).words) × (result ≡ moved (make_step store.old m r x)) }
{
    if words::free(store) == 0 {
        return finishing::refuse_request(store, m, x, Refusal::Full, 0);
    }
    made_step(store, m, r, x)
}

// ---- tidy

// The descriptor d on the path goes, and its record is free; b is the one before it.
fn tidy_at(store: &mut [u32], m: usize, at: usize, key: u32, b: usize, d: usize)
    requires { TidyAble store.old m at b d }
    ensures { store.new ≡ tidy_at store.old m at key b d }
{
    let before = Descriptor::load(store, m, b);
    let next = groups::descriptor_next(store, m, d);
    before.with_next_descriptor(next).write(store, m, b); // unlinked
    descents::remove_leaf(store, m, at, key);
    chain::push_free(store, m, d);
}

fn gone_step(store: &mut [u32], m: usize, b: usize, d: usize, x: Session) -> Moved
    requires { TidyAble store.old m x.at b d }
    ensures { (store.new ≡ (gone_step store.old m b d x).words) × (result ≡ moved (gone_step store.old m b d x)) }
{
    let at = x.at as usize;
    tidy_at(store, m, at, x.target, b, d);
    Moved {
        answer: Answer::Tidied(x.target, 1),
        session: endings::idle_session(x),
    }
}

fn left_step(store: &mut [u32], m: usize, x: Session) -> Moved
    requires { HasRecord store.old m x.at }
    ensures { (store.new ≡ (left_step store.old m x).words) × (result ≡ moved (left_step store.old m x)) }
{
    let at = x.at as usize;
    nodes::set_latch(store, m, at, 0);
    Moved {
        answer: Answer::Tidied(x.target, 0),
        session: endings::idle_session(x),
    }
}

// The housekeeper removes its choice, or leaves it.
pub fn tidy_step(store: &mut [u32], m: usize, r: usize, x: Session) -> Moved
    requires { TidyReady store.old m r x }
    ensures { (store.new ≡ (tidy_step store.old m r x).words) × (result ≡ moved (tidy_step store.old m r x)) }
{
    let at = x.at as usize;
    let d = descents::son_toward(store, m, at, x.target);
    let b = pred_of(store, m, r, x.target);
    let gap = groups::descriptor_gap(store, m, b);
    let v = Descriptor::load(store, m, d);
    if v.is_removable(gap) {
        return gone_step(store, m, b, d, x);
    }
    left_step(store, m, x)
}

// ---- the row

fn session_step(store: &mut [u32], m: usize, r: usize, x: Session) -> Moved
    requires { SessionReady store.old m r x }
    ensures { (store.new ≡ (session_step store.old m r x).words) × (result ≡ moved (session_step store.old m r x)) }
{
    let at = x.at as usize;
    let d = descents::son_toward(store, m, at, x.target);
    let key = words::word(store, m, d, 1);
    if key == x.target {
        return pin_step(store, m, x);
    }
    make_step(store, m, r, x)
}

// Party p's step at the lowest node of its descent, in a store of r records.
pub fn lowest_step(store: &mut [u32], m: usize, r: usize, p: u32, x: Session) -> Moved
    requires { LowestReady store.old m r p x }
    ensures { (store.new ≡ (lowest_step_of store.old m r p x).words) × (result ≡ moved (lowest_step_of store.old m r p x)) }
{
    if p == 0 {
        return tidy_step(store, m, r, x);
    }
    session_step(store, m, r, x)
}
