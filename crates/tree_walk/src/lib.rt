// Tree walk: the tree is whole. Each node and descriptor is met once, all descriptors are at one depth, keys rise and are chained in
// that order, boundaries separate sons, and each node has as many sons as it may.
//
// One walk from the root does all of it, and answers Err with the walk as it stood where the tree is not whole. It counts the latched nodes
// on its way, for the comparison with the parties at nodes, and notes the descriptors in the order of their keys, for the walk of the
// groups. The depth of a node says whether its sons are nodes or descriptors. Each function's result, and what it leaves, EQUAL a definition
// of specs/TreeWalk. It rests on the crates words, kinds, nodes, groups and marks.
#![tactic(auto)]

ghost use Rattle.std.specs.Prelude.{◌≡◌, ◌≤◌, ◌<◌, length};
ghost use Rattle.words.specs.Store.{HasRecord};
ghost use Rattle.tree_walk.specs.TreeWalk.{Toured, Entered, going, walk_if, tour, raise, leaf_words, leaf_tour, leaves_from, enter_tour, count_latch, fanout_ok, sons_from, tree_from, start_walk, root_tour};

use kinds::Record;
use marks::{Mark, Records};
use nodes::Node;

// A walk: how many records may still be met, how many nodes are latched, the record of the descriptor that the chain names next, how many
// descriptors were met, and the lowest key that the next may have. A function answers it as Ok if it is in order so far, and if not, as Err,
// as it stood when it was refused.
#[derive(Clone, Copy)]
pub struct Walk {
    pub left: usize,
    pub latches: usize,
    pub next: usize,
    pub count: usize,
    pub low: usize,
}

// ---- descriptors

// Descriptor i's key is above the one before it, and from least to top; the chain goes on behind it.
fn leaf_words(
    store: &[u32],
    m: usize,
    i: usize,
    least: usize,
    top: usize,
    w: Walk,
) -> Result<Walk, Walk>
    requires { HasRecord store.now m i × (w.count ≤ 4096) }
    ensures { result ≡ walk_if (leaf_words store.now m i least top (going w)) }
{
    let key = groups::descriptor_key(store, m, i) as usize;
    if key < w.low {
        return Err(w);
    }
    if key < least {
        return Err(w);
    }
    if top < key {
        return Err(w);
    }
    let next = groups::descriptor_next(store, m, i) as usize;
    Ok(Walk {
        next,
        count: w.count + 1,
        low: key + 1,
        ..w
    })
}

// Descriptor i is the one that the chain names, and is met for the first time; its place in the order is noted.
fn walk_leaf(
    records: Records,
    seen: &mut [u8],
    order: &mut [u16],
    i: usize,
    least: usize,
    top: usize,
    w: Walk,
) -> Result<Walk, Walk>
    requires { (records.r < length seen.old) × (length order.old ≡ 4097) }
    ensures { Toured (leaf_tour records.entry.store.now records.entry.m records.entry.r i least top (tour (going w) seen.old order.old)) result seen.new order.new }
{
    let Records { store, m, r } = records;
    if i != w.next {
        return Err(w);
    }
    let k = w.count;
    if 4096 < k {
        return Err(w);
    }
    let Ok(left) = Mark::Descriptor.meet(seen, r, i, w.left) else {
        return Err(w);
    };
    order[k] = i as u16;
    leaf_words(store, m, i, least, top, Walk { left, ..w })
}

// A lowest node's sons. The boundary behind a son is its key: the lowest and the highest that it may have; the last son has none.
fn walk_leaves(
    records: Records,
    seen: &mut [u8],
    order: &mut [u16],
    n: Node,
    hi: usize,
    w: Walk,
) -> Result<Walk, Walk>
    requires { (records.r < length seen.old) × (length order.old ≡ 4097) × (hi < 4294967296) × (n.count ≤ 8) }
    ensures { Toured (leaves_from records.entry.store.now records.entry.m records.entry.r n hi 0 n.count (tour (going w) seen.old order.old)) result seen.new order.new }
{
    let count = n.count as usize;
    let b = n.bounds;
    let s = n.sons;
    let mut v = w;
    for k in 0..count {
        let i = s[k] as usize;
        let mut least = 0;
        let mut top = hi;
        if k + 1 < count {
            least = b[k] as usize;
            top = least;
        }
        v = walk_leaf(records, seen, order, i, least, top, v)?;
    }
    Ok(v)
}

// ---- nodes

// The walk, whose next key lies above top.
fn raised(w: Walk, top: usize) -> Walk
    requires { top < 4294967296 }
    ensures { going result ≡ raise (going w) top }
{
    Walk { low: top + 1, ..w }
}

// Node i is met for the first time.
fn enter_node(seen: &mut [u8], r: usize, i: usize, w: Walk) -> Result<Walk, Walk>
    requires { r < length seen.old }
    ensures { Entered r i (enter_tour r i (going w) seen.old) result seen.new }
{
    match Mark::Node.meet(seen, r, i, w.left) {
        Ok(left) => Ok(Walk { left, ..w }),
        Err(left) => Err(Walk { left, ..w }),
    }
}

// A node's latch, if it has one, is counted, to 4096.
fn count_latch(n: Node, w: Walk) -> Walk
    ensures { going result ≡ count_latch n (going w) }
{
    if n.latch == 0 {
        return w;
    }
    if 4096 <= w.latches {
        return w;
    }
    Walk {
        latches: w.latches + 1,
        ..w
    }
}

// A node of at least so many sons, and at most 8.
fn fanout_ok(n: Node, least: usize) -> bool
    ensures { result ≡ fanout_ok n least }
{
    let count = n.count as usize;
    if count < least {
        return false;
    }
    count <= 8
}

// The tree below node i, of at least so many sons, whose lowest nodes are `depth` levels down, with keys up to hi.
#[cycle(walk_node_walk_sons)]
fn walk_node(
    records: Records,
    seen: &mut [u8],
    order: &mut [u16],
    depth: usize,
    least: usize,
    i: usize,
    hi: usize,
    w: Walk,
) -> Result<Walk, Walk>
    requires { (records.r < length seen.old) × (length order.old ≡ 4097) × (hi < 4294967296) }
    ensures { Toured (tree_from records.entry.store.now records.entry.m records.entry.r depth least i hi (tour (going w) seen.old order.old)) result seen.new order.new }
{
    let Records { store, m, r } = records;
    let v = enter_node(seen, r, i, w)?;
    let n = Node::load(store, m, i);
    if !fanout_ok(n, least) {
        return Err(v);
    }
    let u = count_latch(n, v);
    if depth == 0 {
        return walk_leaves(records, seen, order, n, hi, u);
    }
    walk_sons(records, seen, order, depth - 1, n, hi, u)
}

// A node's sons, which are nodes. The highest key below a son is the boundary behind it, and below the last the node's own.
#[cycle(walk_node_walk_sons)]
fn walk_sons(
    records: Records,
    seen: &mut [u8],
    order: &mut [u16],
    depth: usize,
    n: Node,
    hi: usize,
    w: Walk,
) -> Result<Walk, Walk>
    requires { (records.r < length seen.old) × (length order.old ≡ 4097) × (hi < 4294967296) × (n.count ≤ 8) }
    ensures { Toured (sons_from (tree_from records.entry.store.now records.entry.m records.entry.r depth 3) n hi 0 n.count (tour (going w) seen.old order.old)) result seen.new order.new }
{
    let count = n.count as usize;
    let b = n.bounds;
    let s = n.sons;
    let mut v = w;
    for k in 0..count {
        let i = s[k] as usize;
        let mut top = hi;
        if k + 1 < count {
            top = b[k] as usize;
        }
        let u = walk_node(records, seen, order, depth, 3, i, top, v)?;
        v = raised(u, top);
    }
    Ok(v)
}

// ---- the whole tree

// Before any record is met, with the chain of descriptors from record first.
fn starting(r: usize, first: usize) -> Walk
    ensures { going result ≡ start_walk r first }
{
    Walk {
        left: r,
        latches: 0,
        next: first,
        count: 0,
        low: 0,
    }
}

// From the root, with 1 to 8 levels of nodes; the descriptors are chained from the header's first to the end, and their keys lie below
// the upper infinity.
pub fn walk_root(records: Records, seen: &mut [u8], order: &mut [u16]) -> Result<Walk, Walk>
    requires { (records.r < length seen.old) × (length order.old ≡ 4097) }
    ensures { Toured (root_tour records.entry.store.now records.entry.m records.entry.r seen.old order.old) result seen.new order.new }
{
    let Records { store, r, .. } = records;
    let root = words::root(store) as usize;
    let height = words::height(store) as usize;
    let first = words::first(store) as usize;
    let w = starting(r, first);
    if height == 0 {
        return Err(w);
    }
    if 8 < height {
        return Err(w);
    }
    let v = walk_node(records, seen, order, height - 1, 1, root, 4294967294, w)?;
    if v.next != 0 {
        return Err(v);
    }
    Ok(v)
}
