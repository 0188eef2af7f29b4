// Joins: two neighbours among the sons of a node joined on the way down, or a son moved between them, on the words of a store.
//
// A descent has the latch (document 01's short lock) of one node at a time. Each way down releases the node above and latches the one
// that it goes on with. A latch word is handed in, 0 for none, else the party and 1. So is the boundary that comes down between the two.
// The functions write what they are told to: whether a step is the right one is not decided here.
//
// Each function promises that the words it leaves, and what it answers, EQUAL a definition of specs/Joins, where also stands what it
// asks for. It rests on the crates words, kinds, nodes, reshaping and chain.
#![tactic(auto)]

ghost use Rattle.std.specs.Prelude.{◌≡◌, ◌+◌, ◌≤◌};
ghost use Rattle.nodes.specs.Node.{node_at};
ghost use Rattle.nodes.specs.Paths.{son_at};
ghost use Rattle.reshaping.specs.Ops.{join_nodes, move_from_left, move_from_right};
ghost use Rattle.joins.specs.Joins.{pair_place, CanBeOne, CanJoin, join_sons, CanGoRight, CanMoveRight, move_right, CanGoLeft, CanMoveLeft, move_left, HasDown, down_bound};

use kinds::Record;
use nodes::Node;
use reshaping::Neighbours;

// ---- which two, and the boundary that comes down

// The place of the left one of the pair that the son on the path makes with its left neighbour, or, for the first, with its right one.
pub fn pair_place(n: Node, key: u32) -> usize
    requires { (1 ≤ n.count) × (n.count ≤ 8) }
    ensures { result ≡ pair_place n key }
{
    let i = n.find_son(key);
    if i == 0 {
        return 0;
    }
    i - 1
}

// The key of the last descriptor of the left one of the sons at i and i + 1, which are lowest nodes.
fn last_key(store: &[u32], m: usize, at: usize, i: usize) -> u32
    requires { HasDown store.now m 1 at i }
    ensures { result ≡ down_bound store.now m 1 at i }
{
    let l = nodes::node_son(store, m, at, i) as usize;
    let count = nodes::node_count(store, m, l) as usize;
    let last = nodes::node_son(store, m, l, count - 1) as usize;
    words::word(store, m, last, 1)
}

// The boundary that comes down between the sons at i and i + 1, which are nodes of that level from below.
pub fn down_bound(store: &[u32], m: usize, level: u32, at: usize, i: usize) -> u32
    requires { HasDown store.now m level at i }
    ensures { result ≡ down_bound store.now m level at i }
{
    if level == 1 {
        return last_key(store, m, at, i);
    }
    nodes::node_bound(store, m, at, i)
}

// ---- as one

// Nodes l and r as one, the boundary that comes down between them.
fn joined(store: &[u32], m: usize, l: usize, down: u32, r: usize) -> Node
    requires { CanBeOne store.now m l r }
    ensures { result ≡ join_nodes (node_at store.now m l) down (node_at store.now m r) }
{
    let left = Node::load(store, m, l);
    let right = Node::load(store, m, r);
    reshaping::join_nodes(left, down, right)
}

// Joins the sons at i and i + 1, releases node `at`, latches the one node: that node.
pub fn join_sons(store: &mut [u32], m: usize, at: usize, i: usize, down: u32, w: u32) -> usize
    requires { CanJoin store.old m at i }
    ensures { (result ≡ son_at store.old m at i) × (store.new ≡ join_sons store.old m at i down w) }
{
    let p = Node::load(store, m, at);
    let l = nodes::node_son(store, m, at, i) as usize;
    let q = nodes::node_son(store, m, at, i + 1) as usize;
    let one = joined(store, m, l, down, q);
    one.with_latch(w).write(store, m, l);
    let fewer = reshaping::remove_behind(p, i);
    fewer.with_latch(0).write(store, m, at); // join
    chain::push_free(store, m, q);
    l
}

// ---- one son moved: to the right and to the left, each written out, since they latch different sons and their clauses ask for different room

// Nodes l and r with the left one's last son moved right, and with the right one's first son moved left.
fn moved_right(store: &[u32], m: usize, l: usize, down: u32, r: usize) -> Neighbours
    requires { CanGoRight store.now m l r }
    ensures { result ≡ move_from_left (node_at store.now m l) down (node_at store.now m r) }
{
    let left = Node::load(store, m, l);
    let right = Node::load(store, m, r);
    reshaping::move_from_left(left, down, right)
}

fn moved_left(store: &[u32], m: usize, l: usize, down: u32, r: usize) -> Neighbours
    requires { CanGoLeft store.now m l r }
    ensures { result ≡ move_from_right (node_at store.now m l) down (node_at store.now m r) }
{
    let left = Node::load(store, m, l);
    let right = Node::load(store, m, r);
    reshaping::move_from_right(left, down, right)
}

// Moves the last son of the son at i to the front of the one at i + 1, releases node `at`, latches the right one: that one.
pub fn move_right(store: &mut [u32], m: usize, at: usize, i: usize, down: u32, w: u32) -> usize
    requires { CanMoveRight store.old m at i }
    ensures { (result ≡ son_at store.old m at (i + 1)) × (store.new ≡ move_right store.old m at i down w) }
{
    let p = Node::load(store, m, at);
    let l = nodes::node_son(store, m, at, i) as usize;
    let q = nodes::node_son(store, m, at, i + 1) as usize;
    let n = moved_right(store, m, l, down, q);
    n.left.write(store, m, l);
    n.right.with_latch(w).write(store, m, q);
    let other = reshaping::set_bound(p, i, n.up);
    other.with_latch(0).write(store, m, at); // right
    q
}

// Moves the first son of the son at i + 1 to the end of the one at i, releases node `at`, latches the left one: that one.
pub fn move_left(store: &mut [u32], m: usize, at: usize, i: usize, down: u32, w: u32) -> usize
    requires { CanMoveLeft store.old m at i }
    ensures { (result ≡ son_at store.old m at i) × (store.new ≡ move_left store.old m at i down w) }
{
    let p = Node::load(store, m, at);
    let l = nodes::node_son(store, m, at, i) as usize;
    let q = nodes::node_son(store, m, at, i + 1) as usize;
    let n = moved_left(store, m, l, down, q);
    n.left.with_latch(w).write(store, m, l);
    n.right.write(store, m, q);
    let other = reshaping::set_bound(p, i, n.up);
    other.with_latch(0).write(store, m, at); // left
    l
}
