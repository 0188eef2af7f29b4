// Stepping: one step of a party's request, once nothing refuses it, on the words of a store and on the session table by value.
//
// The caller has tested that store and table are sound and that no check of a step refuses. The stage of the party's request picks the row (node_step,
// early_step and stage_step equal definitions of promises/specs/Stepping); step promises what the crate promises says of a call on sound words (Serves):
// the answer is the machine's, store and table mean the machine's next state, and the list is written as the machine says. A row that waits for a long
// lock names the lowest session in the way: name_wait reads who is in the way again, which a wait leaves as it was, and names the session that began
// first. early_step and name_wait are public for a run, which has its party's record in hand and makes the steps of a scan itself (running). It rests on
// refusals for the party's record, on starting, root_entry, walking, arriving, changing and taking for the rows, on words, groups, locks and seniority for
// whom a wait names.
#![tactic(auto)]

ghost use Rattle.std.specs.Prelude.{◌≡◌, ◌≤◌, ◌<◌, length};
ghost use Rattle.serial.specs.Calls as C;
ghost use Rattle.outcomes.specs.Said.{said};
ghost use Rattle.meaning.specs.Sound.{Sound};
ghost use Rattle.refusals.specs.Refusing.{first_of, step_list};
ghost use Rattle.promises.specs.Ways.{Serves};
ghost use Rattle.promises.specs.Stepping.{node_step, early_step, stage_step, stage_written, entry_conflicts, group_conflicts, first_conflicts, conflict_word, named_by, settled_answer, NodeReady, EarlyReady, StageReady, Nameable, Leaves, LeavesBoth};
ghost use Rattle.starting.specs.Starting.{EntryReady};
ghost use Rattle.members.specs.Members.{Holdable};
ghost use Rattle.taking.specs.Taking.{over};

use outcomes::{Answer, Moved, Served};
use sessions::{Code, PARTIES, Session, Stage};
use words::Field;

// At a node: the lowest, or one above it.
fn node_step(store: &mut [u32], m: usize, r: usize, p: u32, x: Session) -> Moved
    requires { NodeReady store.old m r p x }
    ensures { Leaves store.new result (node_step store.old m r p x) }
{
    if x.level == 1 {
        return arriving::lowest_step(store, m, r, p, x);
    }
    walking::level_step(store, m, p, x)
}

// Stages 1 to 4.
pub fn early_step(store: &mut [u32], m: usize, r: usize, p: u32, x: Session) -> Moved
    requires { EarlyReady store.old m r p x }
    ensures { Leaves store.new result (early_step store.old m r p x) }
{
    if x.stage == Stage::Start as u32 {
        return starting::first_step(store, m, p, x);
    }
    if x.stage == Stage::EnterRoot as u32 {
        return root_entry::enter_step(store, m, p, x);
    }
    if x.stage == Stage::AtNode as u32 {
        return node_step(store, m, r, p, x);
    }
    changing::change_step(store, m, r, p, x)
}

// Only stage 5 writes the list.
fn stage_step(store: &mut [u32], list: &mut [u32], m: usize, r: usize, p: u32, x: Session) -> Moved
    requires { StageReady store.old m r p x }
    ensures { LeavesBoth store.new result list.new (stage_step store.old m r (length list.old) p x) (over (stage_written store.old m r (length list.old) p x) list.old) }
{
    if x.stage == Stage::Take as u32 {
        return taking::take_step(store, list, m, r, p, x);
    }
    early_step(store, m, r, p, x)
}

// ---- whom a wait names

// An entry's lock and a descriptor's are asked for by a function each: the words are read from other places, and each clause names its own definition
// (entry_conflicts, group_conflicts), on which the promise of a wait rests.

// The sessions in the way of p's lock on entry e: asked is 0 for share, 1 for exclusive.
fn entry_conflicts(store: &[u32], e: usize, asked: usize, p: u32) -> u32
    requires { EntryReady store.now p e × (asked < 2) }
    ensures { result ≡ entry_conflicts store.now e asked p }
{
    let weak = words::entry_word(store, e, Field::Share);
    let strong = words::entry_word(store, e, Field::Exclusive);
    locks::conflicting(0, asked, p, weak, strong)
}

// The same at descriptor d: asked is 0 for locate, 1 for update.
fn group_conflicts(store: &[u32], m: usize, d: usize, asked: usize, p: u32) -> u32
    requires { Holdable store.now m d p × (asked < 2) }
    ensures { result ≡ group_conflicts store.now m d asked p }
{
    let locate = groups::descriptor_locate(store, m, d);
    let update = groups::descriptor_update(store, m, d);
    locks::conflicting(1, asked, p, locate, update)
}

// At the first step, by code.
fn first_conflicts(store: &[u32], p: u32, x: Session) -> u32
    requires { x.code ≤ 4 → EntryReady store.now p x.entry }
    ensures { result ≡ first_conflicts store.now p x }
{
    let e = x.entry as usize;
    if x.code == Code::Read as u32 {
        return entry_conflicts(store, e, 0, p);
    }
    if x.code <= Code::Remove as u32 {
        return entry_conflicts(store, e, 1, p);
    }
    0
}

// At a stage that asks for a long lock.
fn conflict_word(store: &[u32], m: usize, r: usize, p: u32, x: Session) -> u32
    requires { StageReady store.now m r p x × ¬ (x.stage ≡ 2) × ¬ (x.stage ≡ 3) }
    ensures { result ≡ conflict_word store.now m r p x }
{
    if x.stage == Stage::Take as u32 {
        let d = taking::next_taken(store, m, r, x);
        return group_conflicts(store, m, d, 0, p);
    }
    if x.stage == Stage::Start as u32 {
        return first_conflicts(store, p, x);
    }
    let low = x.low as usize;
    group_conflicts(store, m, low, 1, p)
}

// The party that a wait names, where the row named q.
fn named_by(
    store: &[u32],
    m: usize,
    r: usize,
    t: [Session; PARTIES],
    p: u32,
    x: Session,
    q: u32,
) -> u32
    requires { StageReady store.now m r p x }
    ensures { result ≡ named_by store.now m r t p x q }
{
    if x.stage == Stage::EnterRoot as u32 {
        return q;
    }
    if x.stage == Stage::AtNode as u32 {
        return q;
    }
    let word = conflict_word(store, m, r, p, x);
    seniority::eldest(t, word)
}

// A row's answer, with the party that a wait names; store, table and record are those after the row.
pub fn name_wait(
    store: &[u32],
    m: usize,
    r: usize,
    t: [Session; PARTIES],
    p: u32,
    x: Session,
    a: Answer,
) -> Answer
    requires { Nameable store.now m r p x a }
    ensures { result ≡ settled_answer store.now m r t p x a }
{
    match a {
        Answer::Ok => Answer::Ok,
        Answer::More => Answer::More,
        Answer::Wait(q) => Answer::Wait(named_by(store, m, r, t, p, x, q)),
        Answer::Done(n) => Answer::Done(n),
        Answer::Tidied(k, b) => Answer::Tidied(k, b),
        Answer::Refused(n, k) => Answer::Refused(n, k),
    }
}

// ---- the step

// One step; the party's record goes back into the table.
pub fn step(store: &mut [u32], list: &mut [u32], t: [Session; PARTIES], p: u32) -> Served
    requires { Sound store.old t × (first_of (step_list t p) ≡ 0) }
    ensures { Serves (C.step p list.old) store.old t (said result.answer) list.new store.new result.table }
{
    let m = words::entries(store) as usize;
    let r = words::records(store) as usize;
    let x = refusals::seat(t, p);
    let z = stage_step(store, list, m, r, p, x);
    let answer = z.answer;
    let y = z.session;
    let after = refusals::settle(t, p, y);
    let named = name_wait(store, m, r, after, p, y, answer);
    Served {
        table: after,
        answer: named,
    }
}
