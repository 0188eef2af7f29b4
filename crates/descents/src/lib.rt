// Descents: what a descent does to latches and to lowest nodes of a store, on words.
//
// A descent has the latch (document 01's short lock) of one node at a time. Here are the plain way down, the change of a lowest node,
// and the tests that come before a step: records enough, no other party's latch in the way. A latch word is handed in, 0 for none,
// else the party and 1. The functions write what they are told to: whether a step is the right one is not decided here.
//
// Each function promises that the words it leaves, and what it answers, EQUAL a definition of specs/Descents, where also stands what it
// asks for. It rests on the crates words, kinds, nodes, reshaping and chain, and on locks for how many sessions there are.
#![tactic(auto)]

ghost use Rattle.std.specs.Prelude.{◌≡◌, ◌≤◌, ◌<◌};
ghost use Rattle.words.specs.Store.{HasRecord};
ghost use Rattle.nodes.specs.Paths.{son_toward};
ghost use Rattle.chain.specs.Free.{Poppable};
ghost use Rattle.locks.specs.Holders.{width};
ghost use Rattle.descents.specs.Descents.{Toward, plain_son, CanInsert, beside, insert_leaf, CanRemove, remove_leaf, has_free, in_way, first_in_way};

use kinds::Record;
use nodes::Node;

// ---- latches

// The party and 1 whose latch word w is in party p's way, 0 for none: so a latch word has them, and so the definition in_way.
pub fn in_way(p: u32, w: u32) -> u32
    requires { p ≤ width }
    ensures { result ≡ in_way p w }
{
    if w == 0 || w == p + 1 { 0 } else { w }
}

// Of two latch words the first that is in party p's way.
pub fn first_in_way(p: u32, v: u32, w: u32) -> u32
    requires { p ≤ width }
    ensures { result ≡ first_in_way p v w }
{
    let first = in_way(p, v);
    if first == 0 { in_way(p, w) } else { first }
}

// At least n records are free. The first of them is 0, by which a store names no record, where none is.
#[tactic(auto, unfolding(crate::specs::Descents::has_free))]
pub fn has_free(store: &[u32], m: usize, n: u32) -> bool
    requires { Poppable store.now m × (n ≤ 2) }
    ensures { result ≡ has_free store.now m n }
{
    let head = words::free(store) as usize;
    n == 0 || (head != 0 && (n == 1 || words::word(store, m, head, 0) != 0))
}

// ---- one level down

// The son of node `at` on the path to a key.
pub fn son_toward(store: &[u32], m: usize, at: usize, key: u32) -> usize
    requires { Toward store.now m at key }
    ensures { result ≡ son_toward store.now m at key }
{
    let p = Node::load(store, m, at);
    let i = p.find_son(key);
    nodes::node_son(store, m, at, i) as usize
}

// Releases node `at` and latches its son on the path to the key: that son.
pub fn enter_son(store: &mut [u32], m: usize, at: usize, key: u32, w: u32) -> usize
    requires { Toward store.old m at key }
    ensures { (result ≡ son_toward store.old m at key) × (store.new ≡ plain_son store.old m at key w) }
{
    let son = son_toward(store, m, at, key);
    nodes::set_latch(store, m, at, 0);
    nodes::set_latch(store, m, son, w);
    son
}

// ---- a lowest node

// A node with a descriptor more beside the one at place i, whose key is k.
fn put_beside(p: Node, i: usize, key: u32, k: u32, new: u32) -> Node
    requires { (p.count < 8) × (i ≤ 7) }
    ensures { result ≡ beside p i key k new }
{
    if key <= k {
        reshaping::insert_before(p, i, key, new)
    } else {
        reshaping::insert_behind(p, i, k, new)
    }
}

// The lowest node `at` gets the descriptor `new` of a key, and is released.
pub fn insert_leaf(store: &mut [u32], m: usize, at: usize, key: u32, new: u32)
    requires { CanInsert store.old m at key }
    ensures { store.new ≡ insert_leaf store.old m at key new }
{
    let p = Node::load(store, m, at);
    let i = p.find_son(key);
    let d = nodes::node_son(store, m, at, i) as usize;
    let k = words::word(store, m, d, 1);
    let wider = put_beside(p, i, key, k, new);
    wider.with_latch(0).write(store, m, at); // leaf in
}

// The lowest node `at` loses the descriptor on the path to the key, and is released.
pub fn remove_leaf(store: &mut [u32], m: usize, at: usize, key: u32)
    requires { CanRemove store.old m at }
    ensures { store.new ≡ remove_leaf store.old m at key }
{
    let p = Node::load(store, m, at);
    let i = p.find_son(key);
    let fewer = reshaping::remove_son(p, i);
    fewer.with_latch(0).write(store, m, at); // leaf out
}
