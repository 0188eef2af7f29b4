// Taking: the steps of a locate's scan, one descriptor a step.
//
// The descriptor that is next is first's own, and then the lowest stored key above the last one taken; the place in the scan is a key, since
// tidy may remove the descriptor of the last one meanwhile. Below second a step takes the descriptor's lock and its gap; the step at second
// takes the lock, writes the pairs of the range to the lent list and ends the request, or is refused 12 where the list is too short.
//
// It promises that the words a step leaves, its party's session record, the answer and the list EQUAL definitions of specs/Taking. specs/Moves
// says that this is the machine's step, and the list the machine's pairs, where the words hold a layout of a sound state; specs/Ready that
// such words have what the code asks for; specs/On that after a step below second the descriptor behind the one taken is next, so that whoever makes
// the next step too need not walk there (next_taken, take_at). It rests on scans for the walks, on members for the locks, on finishing for the
// request's end.
#![tactic(auto)]

ghost use Rattle.std.specs.Prelude.{◌≡◌, length};
ghost use Rattle.members.specs.Members.{Holdable};
ghost use Rattle.outcomes.specs.Said.{moved};
ghost use Rattle.taking.specs.Place.{next_taken};
ghost use Rattle.taking.specs.Pass.{took_key};
ghost use Rattle.taking.specs.Taking.{in_way_of, pass_step, done_step, last_step, last_written, free_step, free_written, take_step_of, take_written, over, CanFind, DoneReady, LastReady, TakeReady};

use outcomes::{Answer, Moved, Refusal};
use sessions::Session;

// The record of the descriptor that is next.
pub fn next_taken(store: &[u32], m: usize, r: usize, x: Session) -> usize
    requires { CanFind store.now m r x }
    ensures { result ≡ next_taken store.now m r x }
{
    let low = x.low as usize;
    if x.last == 0 {
        return low;
    }
    let at = scans::last_upto(store, m, r, low, x.last);
    groups::descriptor_next(store, m, at) as usize
}

// The lowest session in the way of p at descriptor d, 0 for none.
fn in_way_of(store: &[u32], m: usize, d: usize, p: u32) -> u32
    requires { Holdable store.now m d p }
    ensures { result ≡ in_way_of store.now m d p }
{
    let locate = groups::descriptor_locate(store, m, d);
    let update = groups::descriptor_update(store, m, d);
    locks::lowest_blocker(1, 0, p, locate, update)
}

// The session record of a scan that has taken a key.
fn took_key(mut x: Session, key: u32) -> Session
    ensures { result ≡ took_key x key }
{
    x.last = key;
    x
}

// ---- below second

fn pass_step(store: &mut [u32], m: usize, d: usize, p: u32, x: Session) -> Moved
    requires { Holdable store.old m d p }
    ensures { (store.new ≡ (pass_step store.old m d p x).words) × (result ≡ moved (pass_step store.old m d p x)) }
{
    let key = groups::descriptor_key(store, m, d);
    members::hold_pass(store, m, d, p);
    Moved {
        answer: Answer::More,
        session: took_key(x, key),
    }
}

// ---- at second

fn done_step(store: &mut [u32], m: usize, d: usize, p: u32, x: Session, n: u32) -> Moved
    requires { DoneReady store.old m d p x }
    ensures { (store.new ≡ (done_step store.old m d p x n).words) × (result ≡ moved (done_step store.old m d p x n)) }
{
    members::hold_locate(store, m, d, p);
    let y = finishing::end_request(store, m, x);
    Moved {
        answer: Answer::Done(n),
        session: y,
    }
}

fn last_step(
    store: &mut [u32],
    list: &mut [u32],
    m: usize,
    r: usize,
    d: usize,
    p: u32,
    x: Session,
) -> Moved
    requires { LastReady store.old m r d p x }
    ensures { (store.new ≡ (last_step store.old m r (length list.old) d p x).words) × (result ≡ moved (last_step store.old m r (length list.old) d p x)) × (list.new ≡ over (last_written store.old m r (length list.old) x) list.old) }
{
    let low = x.low as usize;
    let n = scans::count_range(store, m, r, low, x.second);
    if list.len() < 2 * n {
        return finishing::refuse_request(store, m, x, Refusal::List, n as u32);
    }
    scans::write_pairs(store, list, m, r, low, x.second);
    done_step(store, m, d, p, x, n as u32)
}

// ---- the step

fn free_step(
    store: &mut [u32],
    list: &mut [u32],
    m: usize,
    r: usize,
    d: usize,
    p: u32,
    x: Session,
) -> Moved
    requires { LastReady store.old m r d p x }
    ensures { (store.new ≡ (free_step store.old m r (length list.old) d p x).words) × (result ≡ moved (free_step store.old m r (length list.old) d p x)) × (list.new ≡ over (free_written store.old m r (length list.old) d x) list.old) }
{
    let key = groups::descriptor_key(store, m, d);
    if key < x.second {
        return pass_step(store, m, d, p, x);
    }
    last_step(store, list, m, r, d, p, x)
}

// The next step of a scan of party p, whose session record is x, for a caller who knows the record d that is next; r is how many records the
// store has.
pub fn take_at(
    store: &mut [u32],
    list: &mut [u32],
    m: usize,
    r: usize,
    p: u32,
    x: Session,
    d: usize,
) -> Moved
    requires { TakeReady store.old m r p x × (d ≡ next_taken store.old m r x) }
    ensures { (store.new ≡ (take_step_of store.old m r (length list.old) p x).words) × (result ≡ moved (take_step_of store.old m r (length list.old) p x)) × (list.new ≡ over (take_written store.old m r (length list.old) p x) list.old) }
{
    let b = in_way_of(store, m, d, p);
    if b != 0 {
        return Moved {
            answer: Answer::Wait(b),
            session: x,
        };
    }
    free_step(store, list, m, r, d, p, x)
}

// The same for a caller who does not.
pub fn take_step(
    store: &mut [u32],
    list: &mut [u32],
    m: usize,
    r: usize,
    p: u32,
    x: Session,
) -> Moved
    requires { TakeReady store.old m r p x }
    ensures { (store.new ≡ (take_step_of store.old m r (length list.old) p x).words) × (result ≡ moved (take_step_of store.old m r (length list.old) p x)) × (list.new ≡ over (take_written store.old m r (length list.old) p x) list.old) }
{
    let d = next_taken(store, m, r, x);
    take_at(store, list, m, r, p, x, d)
}
