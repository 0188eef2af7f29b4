// Tree: the nodes, and how they are split, joined and moved.
//
// A son stands with the boundary before it, and moves with that. The first son of a node stands with the boundary before the node. At a lowest node the
// boundaries are the keys of the descriptors before, and those that stand there are not used.
use arrayvec::ArrayVec;

/// How many nodes the model has room for, and how many sons a node has.
pub const NODE_SLOTS: usize = 1500;

pub const MOST_SONS: usize = 8;

/// A son of a node, with the boundary before it: at a lowest node the key of a descriptor, else the number of a node. It is one number for both, since sons
/// move between nodes in the same way at each level.
#[derive(Clone, Copy, Default)]
struct Son {
    bound: u32,
    child: u32,
}

/// A node. The lowest have level 1; level 0 marks a free slot.
#[derive(Default, Drop)]
struct Node {
    level: u32,
    sons: ArrayVec<Son, MOST_SONS>,
}

/// The place of a son: its node, and its number in it, from 0.
#[derive(Clone, Copy, PartialEq, Eq, Debug)]
pub struct Place {
    pub node: u32,
    pub son: usize,
}

impl Place {
    /// The place of the son to the right.
    pub fn next(self) -> Place {
        Place {
            node: self.node,
            son: self.son.saturating_add(1),
        }
    }

    /// The left place of the two that are joined or between which a son moves: the neighbour is the node to the left, of the first node the one to the
    /// right.
    pub fn left(self) -> Place {
        Place {
            node: self.node,
            son: self.son.saturating_sub(1),
        }
    }

    pub fn is_first(self) -> bool {
        self.son == 0
    }

    /// The place of that neighbour.
    pub fn neighbour(self) -> Place {
        if self.is_first() {
            self.next()
        } else {
            self.left()
        }
    }
}

/// The tree over the descriptors.
#[derive(Drop)]
pub struct Tree {
    root: u32,
    count: u32,
    nodes: [Node; NODE_SLOTS],
}

impl Tree {
    /// No node at all.
    pub fn new() -> Tree {
        Tree {
            root: 0,
            count: 0,
            nodes: Default::default(),
        }
    }

    /// A lone root without sons.
    pub fn reset(&mut self) {
        for node in self.nodes.iter_mut() {
            node.level = 0;
        }
        self.count = 0;
        self.root = self.take_node(1).unwrap_or(0);
    }

    pub fn root(&self) -> u32 {
        self.root
    }

    /// How many nodes there are.
    pub fn count(&self) -> u32 {
        self.count
    }

    /// How many levels of nodes there are.
    pub fn height(&self) -> u32 {
        self.level(self.root)
    }

    fn node(&self, n: u32) -> Option<&Node> {
        self.nodes.get(n as usize)
    }

    pub fn level(&self, n: u32) -> u32 {
        self.node(n).map_or(0, |node| node.level)
    }

    pub fn is_lowest(&self, n: u32) -> bool {
        self.level(n) == 1
    }

    /// How many sons a node has.
    pub fn fanout(&self, n: u32) -> usize {
        self.node(n).map_or(0, |node| node.sons.len())
    }

    fn son(&self, at: Place) -> Son {
        match self.node(at.node) {
            Some(node) => node
                .sons
                .as_slice()
                .get(at.son)
                .copied()
                .unwrap_or_default(),
            None => Son::default(),
        }
    }

    /// The node at a place.
    pub fn child(&self, at: Place) -> u32 {
        self.son(at).child
    }

    /// The place behind the last son of a node.
    fn end(&self, n: u32) -> Place {
        Place {
            node: n,
            son: self.fanout(n),
        }
    }

    /// The place of the son for a key: a key equal to a boundary lies before it.
    pub fn branch(&self, n: u32, key: u32) -> Place {
        let son = self.node(n).map_or(0, |node| {
            let sons = node.sons.as_slice().iter();
            sons.skip(1).take_while(|son| son.bound < key).count()
        });
        Place { node: n, son }
    }

    /// The place of a key in a lowest node.
    fn place_of_key(&self, n: u32, key: u32) -> Place {
        let son = self.node(n).map_or(0, |node| {
            node.sons.as_slice().partition_point(|son| son.child < key)
        });
        Place { node: n, son }
    }

    /// The lone son of the root, where it is a node, else the root.
    pub fn below_lone_root(&self) -> u32 {
        if !self.is_lowest(self.root) && self.fanout(self.root) == 1 {
            return self.child(Place {
                node: self.root,
                son: 0,
            });
        }
        self.root
    }

    /// Takes a slot for a node without sons.
    fn take_node(&mut self, level: u32) -> Option<u32> {
        let n = self.nodes.iter().position(|node| node.level == 0)?;
        let node = self.nodes.get_mut(n)?;
        node.level = level;
        node.sons.clear();
        self.count = self.count.wrapping_add(1);
        Some(n as u32)
    }

    fn free_node(&mut self, n: u32) {
        if let Some(node) = self.nodes.get_mut(n as usize) {
            node.level = 0;
            self.count = self.count.wrapping_sub(1);
        }
    }

    fn insert_son(&mut self, at: Place, son: Son) {
        if let Some(node) = self.nodes.get_mut(at.node as usize) {
            if at.son <= node.sons.len() && !node.sons.is_full() {
                node.sons.insert(at.son, son);
            }
        }
    }

    fn remove_son(&mut self, at: Place) -> Option<Son> {
        self.nodes.get_mut(at.node as usize)?.sons.pop_at(at.son)
    }

    fn move_son(&mut self, from: Place, to: Place) {
        if let Some(son) = self.remove_son(from) {
            self.insert_son(to, son);
        }
    }

    /// Moves the sons from a place on to the end of another node.
    fn move_sons(&mut self, from: Place, n: u32) {
        for _ in from.son..self.fanout(from.node) {
            let end = self.end(n);
            self.move_son(from, end);
        }
    }

    /// What stands above between two neighbours: the boundary there, or of lowest nodes the key of the descriptor before.
    fn middle(&self, left: u32, right: u32) -> u32 {
        if self.is_lowest(left) {
            return self.child(self.end(left).left());
        }
        self.son(Place {
            node: right,
            son: 0,
        })
        .bound
    }

    /// Splits the full node at a place four and four: the right half comes behind it.
    pub fn split(&mut self, at: Place) {
        let left = self.child(at);
        let level = self.level(left);
        if let Some(right) = self.take_node(level) {
            self.move_sons(
                Place {
                    node: left,
                    son: MOST_SONS / 2,
                },
                right,
            );
            let bound = self.middle(left, right);
            self.insert_son(
                at.next(),
                Son {
                    bound,
                    child: right,
                },
            );
        }
    }

    /// Splits a full root: a new root comes over it.
    pub fn split_root(&mut self) {
        let old = self.root;
        let level = self.level(old).wrapping_add(1);
        if let Some(top) = self.take_node(level) {
            let first = Place { node: top, son: 0 };
            self.insert_son(
                first,
                Son {
                    bound: 0,
                    child: old,
                },
            );
            self.root = top;
            self.split(first);
        }
    }

    /// Another node becomes the root in place of the one above it.
    pub fn drop_root(&mut self, n: u32) {
        let top = self.root;
        self.free_node(top);
        self.root = n;
    }

    /// Joins the node at a place and the next one into the left one.
    pub fn join(&mut self, at: Place) {
        let left = self.child(at);
        let right = self.child(at.next());
        self.move_sons(
            Place {
                node: right,
                son: 0,
            },
            left,
        );
        self.remove_son(at.next());
        self.free_node(right);
    }

    /// Moves the last son of the node at a place to the front of the next one, or the first son of that one to the end of the node.
    pub fn move_one(&mut self, at: Place, is_right: bool) {
        let left = self.child(at);
        let right = self.child(at.next());
        let end = self.end(left);
        let front = Place {
            node: right,
            son: 0,
        };
        if is_right {
            self.move_son(end.left(), front);
        } else {
            self.move_son(front, end);
        }
        let bound = self.middle(left, right);
        self.set_bound(at.next(), bound);
    }

    fn set_bound(&mut self, at: Place, bound: u32) {
        if let Some(node) = self.nodes.get_mut(at.node as usize) {
            if let Some(son) = node.sons.get_mut(at.son) {
                son.bound = bound;
            }
        }
    }

    /// Adds the key of a descriptor to a lowest node.
    pub fn insert_key(&mut self, n: u32, key: u32) {
        let at = self.place_of_key(n, key);
        self.insert_son(
            at,
            Son {
                bound: 0,
                child: key,
            },
        );
    }

    /// Takes the key of a descriptor out of a lowest node.
    pub fn remove_key(&mut self, n: u32, key: u32) {
        let at = self.place_of_key(n, key);
        self.remove_son(at);
    }
}

impl Default for Tree {
    fn default() -> Tree {
        Tree::new()
    }
}
