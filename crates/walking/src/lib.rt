// Walking: one step of a descent on words, from a node to its son.
//
// The son on the path to the key is latched as it is; a session splits it if it is full; the housekeeper joins it with a neighbour if it has
// 3 sons, or takes a son from that one. Before that stands who is in the way, and whether a record is free. It promises that the words a step
// leaves, its party's session record and the answer EQUAL a definition of specs/Walking; specs/PairMoves (level-moves) says that this is the
// machine's step, where the words hold a layout of a sound state, and specs/Readies that such words meet what the functions ask for (specs/Ready). The rest of
// specs is the proof of that: Traces (runs of writes), Holes (a part of the tree replaced), Levels and Pairs (what each way down leaves),
// Roots and Enters (the same for the root), Sites (where a party stands). It rests on descents, splits and joins for nodes, on finishing for requests that end.
#![tactic(auto)]

ghost use Rattle.std.specs.Prelude.{◌≡◌, cond, not, ◌&&◌, ◌-◌, ◌≤◌, eqb};
ghost use Rattle.machine.specs.Holders.{width};
ghost use Rattle.nodes.specs.Ops.{son_for};
ghost use Rattle.splits.specs.Splits.{CanSplitSon};
ghost use Rattle.joins.specs.Joins.{CanJoin, CanMoveLeft, CanMoveRight};
ghost use Rattle.outcomes.specs.Said.{moved};
ghost use Rattle.outcomes.specs.declared.Answer.TheVariants.{More, Wait};
ghost use Rattle.walking.specs.Hands.{standing_at};
ghost use Rattle.walking.specs.Walking.{waits_for, plain_step, halved_step, split_step, down_step, alone_step, join_step, left_step, right_step, other_count, mend_by, mend_step, pair_step, level_step};
ghost use Rattle.walking.specs.Ready.{Walker, SplitReady, AloneReady, Mendable, PairReady, LevelReady};

use kinds::Record;
use nodes::Node;
use outcomes::{Answer, Moved, Refusal};
use sessions::{Session, Stage};

// ---- what a step hands back

// The request stands at the node at record i, of level l.
pub fn stand(mut x: Session, i: u32, l: u32) -> Session
    ensures { result ≡ standing_at x i l }
{
    x.stage = Stage::AtNode as u32;
    x.at = i;
    x.level = l;
    x
}

// The step is done, and the request stands there.
fn stands(x: Session, i: usize) -> Moved
    requires { (i ≤ 4096) × (2 ≤ x.level) }
    ensures { result ≡ record { answer = More; session = standing_at x i (x.level - 1) } }
{
    let l = x.level - 1;
    Moved {
        answer: Answer::More,
        session: stand(x, i as u32, l),
    }
}

// The party whose latch word is b is in the way.
fn wait_for(x: Session, b: u32) -> Moved
    requires { ¬ (b ≡ 0) }
    ensures { result ≡ record { answer = Wait (b - 1); session = x } }
{
    Moved {
        answer: Answer::Wait(b - 1),
        session: x,
    }
}

// ---- the son alone

// A session splits a full node; the housekeeper mends one of 3 sons.
fn splits(p: u32, count: u32) -> bool
    ensures { result ≡ (not (eqb p 0) && eqb count 8) }
{
    p != 0 && count == 8
}

fn mends(p: u32, count: u32) -> bool
    ensures { result ≡ (eqb p 0 && eqb count 3) }
{
    p == 0 && count == 3
}

// The steps to a son (plain, halved, join, left, right) are written out: each has its own write, and its clauses say which record that needs.
fn plain_step(store: &mut [u32], m: usize, p: u32, x: Session) -> Moved
    requires { Walker store.old m p x }
    ensures { (store.new ≡ (plain_step store.old m p x).words) × (result ≡ moved (plain_step store.old m p x)) }
{
    let at = x.at as usize;
    let son = descents::enter_son(store, m, at, x.target, p + 1);
    stands(x, son) // plain
}

fn halved_step(store: &mut [u32], m: usize, p: u32, x: Session) -> Moved
    requires { Walker store.old m p x × CanSplitSon store.old m x.at x.target }
    ensures { (store.new ≡ (halved_step store.old m p x).words) × (result ≡ moved (halved_step store.old m p x)) }
{
    let at = x.at as usize;
    let half = splits::split_son(store, m, at, x.target, p + 1);
    stands(x, half)
}

fn split_step(store: &mut [u32], m: usize, p: u32, x: Session) -> Moved
    requires { SplitReady store.old m p x }
    ensures { (store.new ≡ (split_step store.old m p x).words) × (result ≡ moved (split_step store.old m p x)) }
{
    if !descents::has_free(store, m, 1) {
        return finishing::refuse_request(store, m, x, Refusal::Full, 0);
    }
    halved_step(store, m, p, x)
}

fn down_step(store: &mut [u32], m: usize, p: u32, x: Session) -> Moved
    requires { AloneReady store.old m p x }
    ensures { (store.new ≡ (down_step store.old m p x).words) × (result ≡ moved (down_step store.old m p x)) }
{
    let at = x.at as usize;
    let son = descents::son_toward(store, m, at, x.target);
    let count = nodes::node_count(store, m, son);
    if splits(p, count) {
        return split_step(store, m, p, x);
    }
    plain_step(store, m, p, x)
}

fn alone_step(store: &mut [u32], m: usize, p: u32, x: Session) -> Moved
    requires { AloneReady store.old m p x }
    ensures { (store.new ≡ (alone_step store.old m p x).words) × (result ≡ moved (alone_step store.old m p x)) }
{
    let at = x.at as usize;
    let son = descents::son_toward(store, m, at, x.target);
    let b = descents::in_way(p, nodes::node_latch(store, m, son));
    if b == 0 {
        return down_step(store, m, p, x);
    }
    wait_for(x, b)
}

// ---- the son and its neighbour

fn join_step(store: &mut [u32], m: usize, p: u32, x: Session, i: usize, down: u32) -> Moved
    requires { CanJoin store.old m x.at i × (p ≤ width) × (2 ≤ x.level) }
    ensures { (store.new ≡ (join_step store.old m p x i down).words) × (result ≡ moved (join_step store.old m p x i down)) }
{
    let at = x.at as usize;
    let one = joins::join_sons(store, m, at, i, down, p + 1);
    stands(x, one)
}

fn left_step(store: &mut [u32], m: usize, p: u32, x: Session, i: usize, down: u32) -> Moved
    requires { CanMoveLeft store.old m x.at i × (p ≤ width) × (2 ≤ x.level) }
    ensures { (store.new ≡ (left_step store.old m p x i down).words) × (result ≡ moved (left_step store.old m p x i down)) }
{
    let at = x.at as usize;
    let left = joins::move_left(store, m, at, i, down, p + 1);
    stands(x, left)
}

fn right_step(store: &mut [u32], m: usize, p: u32, x: Session, i: usize, down: u32) -> Moved
    requires { CanMoveRight store.old m x.at i × (p ≤ width) × (2 ≤ x.level) }
    ensures { (store.new ≡ (right_step store.old m p x i down).words) × (result ≡ moved (right_step store.old m p x i down)) }
{
    let at = x.at as usize;
    let right = joins::move_right(store, m, at, i, down, p + 1);
    stands(x, right)
}

// The son on the path is the first.
fn is_first(n: Node, key: u32) -> bool
    requires { (1 ≤ n.count) × (n.count ≤ 8) }
    ensures { result ≡ eqb (son_for n key) 0 }
{
    n.find_son(key) == 0
}

fn either(first: bool, a: u32, b: u32) -> u32
    ensures { result ≡ cond first a b }
{
    if first { a } else { b }
}

// Joined where the neighbour has at most 5 sons, else a son comes from it.
fn mend_by(
    store: &mut [u32],
    m: usize,
    p: u32,
    x: Session,
    i: usize,
    first: bool,
    other: u32,
    down: u32,
) -> Moved
    requires { Mendable store.old m p x i first other }
    ensures { (store.new ≡ (mend_by store.old m p x i first other down).words) × (result ≡ moved (mend_by store.old m p x i first other down)) }
{
    if other <= 5 {
        return join_step(store, m, p, x, i, down);
    }
    if first {
        return left_step(store, m, p, x, i, down);
    }
    right_step(store, m, p, x, i, down)
}

fn mend_step(store: &mut [u32], m: usize, p: u32, x: Session) -> Moved
    requires { PairReady store.old m p x }
    ensures { (store.new ≡ (mend_step store.old m p x).words) × (result ≡ moved (mend_step store.old m p x)) }
{
    let at = x.at as usize;
    let n = Node::load(store, m, at);
    let i = joins::pair_place(n, x.target);
    let first = is_first(n, x.target);
    let l = nodes::node_son(store, m, at, i) as usize;
    let q = nodes::node_son(store, m, at, i + 1) as usize;
    let a = nodes::node_count(store, m, l);
    let b = nodes::node_count(store, m, q);
    let other = either(first, b, a);
    let down = joins::down_bound(store, m, x.level - 1, at, i);
    mend_by(store, m, p, x, i, first, other, down)
}

fn pair_step(store: &mut [u32], m: usize, p: u32, x: Session) -> Moved
    requires { PairReady store.old m p x }
    ensures { (store.new ≡ (pair_step store.old m p x).words) × (result ≡ moved (pair_step store.old m p x)) }
{
    let at = x.at as usize;
    let n = Node::load(store, m, at);
    let i = joins::pair_place(n, x.target);
    let l = nodes::node_son(store, m, at, i) as usize;
    let q = nodes::node_son(store, m, at, i + 1) as usize;
    let v = nodes::node_latch(store, m, l);
    let w = nodes::node_latch(store, m, q);
    let b = descents::first_in_way(p, v, w);
    if b == 0 {
        return mend_step(store, m, p, x);
    }
    wait_for(x, b)
}

// ---- the row

// Party p's step from its node to the son on the path.
pub fn level_step(store: &mut [u32], m: usize, p: u32, x: Session) -> Moved
    requires { LevelReady store.old m p x }
    ensures { (store.new ≡ (level_step store.old m p x).words) × (result ≡ moved (level_step store.old m p x)) }
{
    let at = x.at as usize;
    let son = descents::son_toward(store, m, at, x.target);
    let count = nodes::node_count(store, m, son);
    if mends(p, count) {
        return pair_step(store, m, p, x);
    }
    alone_step(store, m, p, x)
}
