// Nodes: a node of the tree as a record, and what reads or marks one.
//
// A node has a latch word (document 01's short lock: 0 for none, else the party's number + 1), count sons, 1 to 8, each the number of
// a record, and a boundary between each two: a key equal to a boundary lies before it. Sons and boundaries past these are unused
// and may have any value. The same functions serve lowest nodes, whose sons are descriptors, and upper ones.
//
// Each function promises that its result, or the store it leaves, EQUALS a definition of specs/: Node (the record's words, and the
// laws of a node written to a store), Ops (the son on the path to a key, a node of one son, another latch). For the layers above,
// Live has the sons and boundaries in use, Entries the same as entries (son, upper bound), Paths the son of a node in a store.
// Nothing here says what a tree is. It rests on the crates words and kinds.
#![tactic(auto, unfolding(crate::specs::Node::encode_node, crate::specs::Node::decode_node, words::specs::Window::words_at, crate::specs::Ops::lone_node, crate::specs::Ops::with_latch, crate::specs::Ops::latch_at))]

ghost use Rattle.std.specs.Prelude.{◌≡◌, ◌≤◌, ◌<◌, length, get_or};
ghost use Rattle.words.specs.Store.{HasRecord};
ghost use Rattle.nodes.specs.Node.{node_kind, Sized, decode-encode, node_at};
ghost use Rattle.nodes.specs.Ops.{son_for, lone_node, with_latch, latch_at};

use kinds::Record;

// A node; latch is document 01's short lock.
#[derive(Clone, Copy)]
pub struct Node {
    pub latch: u32,
    pub count: u32,
    pub bounds: [u32; 7],
    pub sons: [u32; 8],
}

// ---- the record

impl Record for Node {
    ghost kind = { node_kind };

    ghost is_said = { Sized };

    ghost reads_back = { decode-encode };

    fn to_words(self) -> [u32; 20] {
        let b = self.bounds;
        let s = self.sons;
        [
            self.latch, self.count, b[0], b[1], b[2], b[3], b[4], b[5], b[6], s[0], s[1], s[2],
            s[3], s[4], s[5], s[6], s[7], 0, 0, 0,
        ]
    }

    fn from_words(part: &[u32]) -> Node {
        let bounds = [
            part[2], part[3], part[4], part[5], part[6], part[7], part[8],
        ];
        let sons = [
            part[9], part[10], part[11], part[12], part[13], part[14], part[15], part[16],
        ];
        Node {
            latch: part[0],
            count: part[1],
            bounds,
            sons,
        }
    }
}

// Node i gets another latch word.
pub fn set_latch(store: &mut [u32], m: usize, i: usize, latch: u32)
    requires { HasRecord store.old m i }
    ensures { store.new ≡ latch_at store.old m i latch }
{
    words::set_word(store, m, i, 0, latch);
}

// One word of the node at record i, with the rest unread: each says its field in its name and in its contract, so that one function over
// the words' numbers would be no plainer.
pub fn node_latch(store: &[u32], m: usize, i: usize) -> u32
    requires { HasRecord store.now m i }
    ensures { result ≡ (node_at store.now m i).latch }
{
    words::word(store, m, i, 0)
}

pub fn node_count(store: &[u32], m: usize, i: usize) -> u32
    requires { HasRecord store.now m i }
    ensures { result ≡ (node_at store.now m i).count }
{
    words::word(store, m, i, 1)
}

pub fn node_bound(store: &[u32], m: usize, i: usize, k: usize) -> u32
    requires { HasRecord store.now m i × (k < 7) }
    ensures { result ≡ get_or (node_at store.now m i).bounds k 0 }
{
    words::word(store, m, i, 2 + k)
}

pub fn node_son(store: &[u32], m: usize, i: usize, k: usize) -> u32
    requires { HasRecord store.now m i × (k < 8) }
    ensures { result ≡ get_or (node_at store.now m i).sons k 0 }
{
    words::word(store, m, i, 9 + k)
}

// ---- by value

impl Node {
    // The place of the son that a key belongs to: the first whose boundary is at least the key, else the last.
    pub fn find_son(self, key: u32) -> usize
        requires { (1 ≤ self.count) × (self.count ≤ 8) }
        ensures { result ≡ son_for self key }
    {
        let last = (self.count - 1) as usize;
        self.bounds[..last]
            .iter()
            .position(|b| key <= *b)
            .unwrap_or(last)
    }

    // A node with one son and no latch: a fresh root.
    pub fn lone(son: u32) -> Node
        ensures { result ≡ lone_node son }
    {
        Node {
            latch: 0,
            count: 1,
            bounds: [0; 7],
            sons: [son, 0, 0, 0, 0, 0, 0, 0],
        }
    }

    // The node with another latch word.
    pub fn with_latch(self, latch: u32) -> Node
        ensures { result ≡ with_latch self latch }
    {
        Node { latch, ..self }
    }
}
