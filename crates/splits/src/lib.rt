// Splits: a full son of a node split on the way down, the root split or dropped, on the words of a store.
//
// A descent has the latch (document 01's short lock) of one node at a time. A split releases the node above and latches the half that
// the key belongs to. A latch word is handed in, 0 for none, else the party and 1. The functions write what they are told to: whether a
// step is the right one is not decided here.
//
// Each function promises that the words it leaves, and what it answers, EQUAL a definition of specs/Splits, where also stands what it
// asks for. It rests on the crates words, kinds, nodes, reshaping and chain.
#![tactic(auto)]

ghost use Rattle.std.specs.Prelude.{◌≡◌, ◌≤◌, length};
ghost use Rattle.words.specs.Store.{HasRecord};
ghost use Rattle.nodes.specs.Node.{node_at};
ghost use Rattle.nodes.specs.Ops.{lone_node};
ghost use Rattle.reshaping.specs.Ops.{insert_behind, split_node};
ghost use Rattle.splits.specs.Splits.{half_of, put_halves, CanSplitSon, split_son, split_son_half, CanSplitRoot, put_top, split_root, split_root_half, CanDropRoot, drop_root};

use kinds::Record;
use nodes::Node;
use reshaping::Neighbours;

// ---- the two halves of a node

// What belongs to the half of a key: a word or a record.
fn half_of<T: Copy>(key: u32, up: u32, l: T, r: T) -> T
    ensures { result ≡ half_of key up l r }
{
    if key <= up { l } else { r }
}

// Writes the two halves of a node, the half of the key with the latch.
fn put_halves(store: &mut [u32], m: usize, l: usize, r: usize, n: Neighbours, key: u32, w: u32)
    requires { HasRecord store.old m l × HasRecord store.old m r }
    ensures { store.new ≡ put_halves store.old m l r n key w }
{
    let lw = half_of(key, n.up, w, 0);
    let rw = half_of(key, n.up, 0, w);
    let left = n.left.with_latch(lw);
    let right = n.right.with_latch(rw);
    left.write(store, m, l);
    right.write(store, m, r);
}

// The two halves of node i.
fn halves(store: &[u32], m: usize, i: usize) -> Neighbours
    requires { HasRecord store.now m i }
    ensures { result ≡ split_node (node_at store.now m i) }
{
    reshaping::split_node(Node::load(store, m, i))
}

// Splits the full son on the path to the key, releases node `at`, latches the half of the key: that half.
pub fn split_son(store: &mut [u32], m: usize, at: usize, key: u32, w: u32) -> usize
    requires { CanSplitSon store.old m at key }
    ensures { (result ≡ split_son_half store.old m at key) × (store.new ≡ split_son store.old m at key w) }
{
    let p = Node::load(store, m, at);
    let i = p.find_son(key);
    let son = nodes::node_son(store, m, at, i) as usize;
    let n = halves(store, m, son);
    let a = chain::pop_free(store, m);
    put_halves(store, m, son, a, n, key, w);
    let wider = reshaping::insert_behind(p, i, n.up, a as u32);
    wider.with_latch(0).write(store, m, at); // split
    half_of(key, n.up, son, a)
}

// ---- the root

// The header gets another root and height.
fn set_top(store: &mut [u32], root: usize, height: u32)
    requires { (16 ≤ length store.old) × (root ≤ 4294967295) }
    ensures { store.new ≡ put_top store.old root height }
{
    words::set_root(store, root as u32);
    words::set_height(store, height);
}

// A node of two sons with no latch.
fn node_over(l: u32, up: u32, r: u32) -> Node
    ensures { result ≡ insert_behind (lone_node l) 0 up r }
{
    reshaping::insert_behind(Node::lone(l), 0, up, r)
}

// Splits the full root under a new one and latches the half of the key: that half.
pub fn split_root(store: &mut [u32], m: usize, key: u32, w: u32) -> usize
    requires { CanSplitRoot store.old m }
    ensures { (result ≡ split_root_half store.old m key) × (store.new ≡ split_root store.old m key w) }
{
    let t = words::root(store);
    let height = words::height(store);
    let n = halves(store, m, t as usize);
    let a = chain::pop_free(store, m);
    let b = chain::pop_free(store, m);
    put_halves(store, m, t as usize, a, n, key, w);
    node_over(t, n.up, a as u32).write(store, m, b);
    set_top(store, b, height + 1);
    half_of(key, n.up, t as usize, a)
}

// The root's first son becomes the root, and the former root's record is given back.
pub fn drop_root(store: &mut [u32], m: usize)
    requires { CanDropRoot store.old m }
    ensures { store.new ≡ drop_root store.old m }
{
    let r = words::root(store) as usize;
    let height = words::height(store);
    let son = nodes::node_son(store, m, r, 0) as usize;
    set_top(store, son, height - 1);
    chain::push_free(store, m, r);
}
