// Reshaping: the operations on nodes by value: a son put in or taken out, a boundary replaced, split, join, move.
//
// The same functions serve lowest nodes, whose sons are descriptors, and upper ones: what differs, the boundary that comes down, is
// handed in. Sons and boundaries past those in use may have any value, before and after.
//
// Each function promises that its result EQUALS a definition of specs/Ops. For the layers above, Live says what each operation does
// to the sons and boundaries in use, and Entries what it does to entries (son, upper bound): split is take and drop, join is append.
// Nothing here reads a store, or says what a tree is. It rests on the crates words, kinds and nodes.
#![tactic(auto)]

ghost use Rattle.std.specs.Prelude.{◌≡◌, ◌+◌, ◌≤◌, ◌<◌, length};
ghost use Rattle.reshaping.specs.Ops.{insert_in, remove_in, insert_son, insert_before, insert_behind, drop_son, remove_before, remove_behind, remove_son, set_bound, split_node, join_nodes, move_from_left, move_from_right};

use nodes::Node;

// Two neighbours, and the boundary between them, which goes up to their parent.
#[derive(Clone, Copy)]
pub struct Neighbours {
    pub left: Node,
    pub up: u32,
    pub right: Node,
}

// ---- one array of a node

// Puts x at `at`; the later ones move on by one, and the last one goes.
pub fn insert_in(a: &mut [u32], at: usize, x: u32)
    requires { at ≤ length a.old }
    ensures { a.new ≡ insert_in a.old at x }
{
    if at < a.len() {
        a.copy_within(at..a.len() - 1, at + 1);
        a[at] = x;
    }
}

// Takes out what stands at `at`; the later ones move up by one, and a 0 comes last.
pub fn remove_in(a: &mut [u32], at: usize)
    requires { at < length a.old }
    ensures { a.new ≡ remove_in a.old at }
{
    let last = a.len() - 1;
    a.copy_within(at + 1.., at);
    a[last] = 0;
}

// ---- a son more, a son less

// One more boundary, at i, and one more son, at j.
pub fn insert_son(mut n: Node, i: usize, key: u32, j: usize, son: u32) -> Node
    requires { (n.count < 8) × (i ≤ 7) × (j ≤ 8) }
    ensures { result ≡ insert_son n i key j son }
{
    insert_in(&mut n.bounds, i, key);
    insert_in(&mut n.sons, j, son);
    n.count += 1;
    n
}

// A son before place i, and the boundary between the two.
pub fn insert_before(n: Node, i: usize, key: u32, son: u32) -> Node
    requires { (n.count < 8) × (i ≤ 7) }
    ensures { result ≡ insert_before n i key son }
{
    insert_son(n, i, key, i, son)
}

// A son behind place i, and the boundary between the two.
pub fn insert_behind(n: Node, i: usize, key: u32, son: u32) -> Node
    requires { (n.count < 8) × (i ≤ 7) }
    ensures { result ≡ insert_behind n i key son }
{
    insert_son(n, i, key, i + 1, son)
}

// Boundary i and son j less.
pub fn drop_son(mut n: Node, i: usize, j: usize) -> Node
    requires { (1 ≤ n.count) × (i < 7) × (j < 8) }
    ensures { result ≡ drop_son n i j }
{
    remove_in(&mut n.bounds, i);
    remove_in(&mut n.sons, j);
    n.count -= 1;
    n
}

// Boundary i less, and the son before it.
pub fn remove_before(n: Node, i: usize) -> Node
    requires { (1 ≤ n.count) × (i < 7) }
    ensures { result ≡ remove_before n i }
{
    drop_son(n, i, i)
}

// Boundary i less, and the son behind it.
pub fn remove_behind(n: Node, i: usize) -> Node
    requires { (1 ≤ n.count) × (i < 7) }
    ensures { result ≡ remove_behind n i }
{
    drop_son(n, i, i + 1)
}

// Son i less, with the boundary behind it; the last son goes with the boundary before it.
pub fn remove_son(n: Node, i: usize) -> Node
    requires { (2 ≤ n.count) × (n.count ≤ 8) × (i < n.count) }
    ensures { result ≡ remove_son n i }
{
    let count = n.count as usize;
    if i + 1 < count {
        return remove_before(n, i);
    }
    remove_behind(n, i - 1)
}

// The node with boundary i replaced.
pub fn set_bound(mut n: Node, i: usize, key: u32) -> Node
    requires { i < 7 }
    ensures { result ≡ set_bound n i key }
{
    n.bounds[i] = key;
    n
}

// ---- two nodes

// A full node as two of four sons, and the boundary between them. The left one keeps the latch.
pub fn split_node(n: Node) -> Neighbours
    ensures { result ≡ split_node n }
{
    let b = n.bounds;
    let s = n.sons;
    Neighbours {
        left: Node {
            latch: n.latch,
            count: 4,
            bounds: [b[0], b[1], b[2], 0, 0, 0, 0],
            sons: [s[0], s[1], s[2], s[3], 0, 0, 0, 0],
        },
        up: b[3],
        right: Node {
            latch: 0,
            count: 4,
            bounds: [b[4], b[5], b[6], 0, 0, 0, 0],
            sons: [s[4], s[5], s[6], s[7], 0, 0, 0, 0],
        },
    }
}

// Two nodes of at most 8 sons together as one, with the boundary that comes down between them.
pub fn join_nodes(mut l: Node, down: u32, r: Node) -> Node
    requires { (1 ≤ l.count) × (1 ≤ r.count) × (l.count + r.count ≤ 8) }
    ensures { result ≡ join_nodes l down r }
{
    let lc = l.count as usize;
    let rc = r.count as usize;
    l.bounds[lc - 1] = down;
    l.bounds[lc..lc + rc - 1].copy_from_slice(&r.bounds[..rc - 1]);
    l.sons[lc..lc + rc].copy_from_slice(&r.sons[..rc]);
    l.count += r.count;
    l
}

// The left one's last son goes to the front of the right one, down comes down before its former first son, and the left one's last
// boundary goes up.
pub fn move_from_left(l: Node, down: u32, r: Node) -> Neighbours
    requires { (2 ≤ l.count) × (l.count ≤ 8) × (r.count < 8) }
    ensures { result ≡ move_from_left l down r }
{
    let last = (l.count - 1) as usize;
    let moved = l.sons[last]; // the left one's last
    Neighbours {
        left: remove_behind(l, last - 1),
        up: l.bounds[last - 1],
        right: insert_before(r, 0, down, moved),
    }
}

// The right one's first son goes to the end of the left one, down comes down behind its former last son, and the right one's first
// boundary goes up.
pub fn move_from_right(l: Node, down: u32, r: Node) -> Neighbours
    requires { (1 ≤ l.count) × (l.count < 8) × (1 ≤ r.count) }
    ensures { result ≡ move_from_right l down r }
{
    let last = (l.count - 1) as usize;
    let moved = r.sons[0]; // the right one's first
    Neighbours {
        left: insert_behind(l, last, down, moved),
        up: r.bounds[0],
        right: remove_before(r, 0),
    }
}
