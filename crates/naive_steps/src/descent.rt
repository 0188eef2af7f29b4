// Descent: the way of a party from the root to the lowest node of its key, a step a level.
use super::party::{Code, Progress, Refusal, Stage, Step, alone};
use super::state::State;
use naive_tree::events::Event;
use naive_tree::keys::Descriptor;
use naive_tree::tree::{MOST_SONS, Place};

/// The long lock that a step takes: of an entry, or of a key.
#[derive(Clone, Copy, PartialEq, Eq, Debug)]
pub enum Lock {
    Share(u32),
    Exclusive(u32),
    Locate(u32),
    Update(u32),
}

/// A wait: the party that it names, the set of all that are in the way, party q as bit q, and the event that counts it.
#[derive(Clone, Copy)]
pub struct Wait {
    pub named: u32,
    pub parties: u32,
    pub event: Event,
}

/// What a step takes: it waits, or else it is refused, or else it takes a lock.
#[derive(Clone, Copy)]
pub struct Plan {
    pub wait: Option<Wait>,
    pub refusal: Option<Refusal>,
    pub lock: Option<Lock>,
}

/// What is done to a node before the party enters it: a session splits a full one; the housekeeper joins one with three sons with its neighbour, or moves a
/// son to it from there.
#[derive(Clone, Copy, PartialEq, Eq, Debug)]
enum Due {
    Nothing,
    Split,
    Join,
    Move,
}

impl Due {
    /// The event that counts it, at a place.
    fn event(self, at: Place) -> Option<Event> {
        match self {
            Due::Nothing => None,
            Due::Split => Some(Event::NodeSplit),
            Due::Join if at.is_first() => Some(Event::JoinedRight),
            Due::Join => Some(Event::JoinedLeft),
            Due::Move if at.is_first() => Some(Event::MovedFromRight),
            Due::Move => Some(Event::MovedFromLeft),
        }
    }
}

impl State {
    /// Must a session split the node that it enters?
    fn is_full(&self, p: u32, n: u32) -> bool {
        p != 0 && self.tree.fanout(n) == MOST_SONS
    }

    /// The place of the son of a node to which the party goes.
    fn way(&self, p: u32, n: u32) -> Place {
        self.tree.branch(n, self.parties.get(p).target)
    }

    /// What is due at the node at a place before the party enters it.
    fn due(&self, p: u32, at: Place) -> Due {
        let n = self.tree.child(at);
        if self.is_full(p, n) {
            return Due::Split;
        }
        if p != 0 || self.tree.fanout(n) != 3 {
            return Due::Nothing;
        }
        if self.tree.fanout(self.tree.child(at.neighbour())) <= 5 {
            Due::Join
        } else {
            Due::Move
        }
    }

    /// A step that needs two nodes, which may be one, and so many records: a wait names whoever has latched the first of them, or else the second.
    fn latch_plan(&self, p: u32, first: u32, second: u32, need: u32) -> Plan {
        let x = self.parties.latched_by(p, first);
        let y = self.parties.latched_by(p, second);
        Plan {
            wait: x.or(y).map(|named| Wait {
                named,
                parties: x.map_or(0, alone) | y.map_or(0, alone),
                event: Event::LatchWait,
            }),
            refusal: self.lack(need),
            lock: None,
        }
    }

    /// The step into the root, which stands above its lone son. A split of it needs two records, and one becomes free where a root whose lone son is a node
    /// is dropped.
    pub fn root_plan(&self, p: u32) -> Plan {
        let top = self.tree.root();
        let n = self.tree.below_lone_root();
        let need = match (self.is_full(p, n), n == top) {
            (true, true) => 2,
            (true, false) => 1,
            _ => 0,
        };
        self.latch_plan(p, top, n, need)
    }

    /// The step at a lowest node: it needs no node, and a descriptor that is made needs a record.
    fn lowest_plan(&self, p: u32) -> Plan {
        let is_new = p != 0 && !self.descriptors.is_stored(self.parties.get(p).target);
        Plan {
            wait: None,
            refusal: self.lack(is_new as u32),
            lock: None,
        }
    }

    /// The step down from node n. A split needs a record. Of two that are joined or between which a son moves the left one comes first.
    pub fn way_plan(&self, p: u32, n: u32) -> Plan {
        if self.tree.is_lowest(n) {
            return self.lowest_plan(p);
        }
        let at = self.way(p, n);
        let son = self.tree.child(at);
        match self.due(p, at) {
            Due::Nothing => self.latch_plan(p, son, son, 0),
            Due::Split => self.latch_plan(p, son, son, 1),
            Due::Join | Due::Move => {
                let left = at.left();
                let first = self.tree.child(left);
                self.latch_plan(p, first, self.tree.child(left.next()), 0)
            }
        }
    }

    /// Enters the root: one whose lone son is a node is dropped first, and a full one split.
    pub fn enter(&mut self, p: u32) -> Progress {
        let n = self.tree.below_lone_root();
        let is_full = self.is_full(p, n);
        if self.tree.root() != n {
            self.counts.note(Event::RootDropped);
            self.counts.note_if(is_full, Event::DroppedAndSplit);
            self.tree.drop_root(n);
        }
        if is_full {
            self.tree.split_root();
            let top = self.tree.root();
            return self.enter_son(p, top, Some(Event::RootSplit));
        }
        self.reach(p, Stage::InHand(Step::At(n)), None);
        Progress::More
    }

    /// Latches the son of node n that the key lies in, after an event. The latch that the party had before ends.
    fn enter_son(&mut self, p: u32, n: u32, event: Option<Event>) -> Progress {
        let son = self.tree.child(self.way(p, n));
        self.reach(p, Stage::InHand(Step::At(son)), event);
        Progress::More
    }

    /// One step further down from node n, which is latched.
    pub fn go_down(&mut self, p: u32, n: u32) -> Progress {
        if self.tree.is_lowest(n) {
            return self.arrive(p, n);
        }
        let at = self.way(p, n);
        let due = self.due(p, at);
        match due {
            Due::Nothing => {}
            Due::Split => self.tree.split(at),
            Due::Join => self.tree.join(at.left()),
            Due::Move => self.tree.move_one(at.left(), !at.is_first()),
        }
        self.enter_son(p, n, due.event(at))
    }

    /// The last step of a descent, at the lowest node.
    fn arrive(&mut self, p: u32, n: u32) -> Progress {
        let key = self.parties.get(p).target;
        if p == 0 {
            return self.tidy(n, key);
        }
        if !self.descriptors.is_stored(key) {
            self.make_descriptor(n, key);
        }
        self.pin(p)
    }

    /// A descriptor without members, with the holders of the gap that it lies in.
    fn make_descriptor(&mut self, n: u32, key: u32) {
        let holders = self.descriptors.gap_below(key);
        self.counts.note(Event::Made);
        self.counts.note_if(holders != 0, Event::MadeInHeldGap);
        self.descriptors.insert(Descriptor {
            key,
            group: 0,
            locate: holders,
            update: 0,
            gap: holders,
        });
        self.tree.insert_key(n, key);
    }

    /// Pins the descriptor of the target: an insert or remove comes to its change, a locate goes on to its second key or takes its keys.
    fn pin(&mut self, p: u32) -> Progress {
        let mut party = self.parties.get(p);
        let second = party.request.second;
        party.stage = Stage::InHand(if party.request.code != Code::Locate {
            Step::Change
        } else if party.target != second {
            Step::Enter
        } else {
            Step::Take
        });
        party.target = second;
        self.parties.set(p, party);
        Progress::More
    }

    /// Is the descriptor of this key of no use? Nobody needs it, and it holds what the gap before it holds.
    fn is_useless(&self, key: u32) -> bool {
        let gap = self.descriptors.gap_below(key);
        self.descriptors.of(key).is_some_and(|d| {
            key != 0 && d.group | d.update == 0 && d.locate == gap && d.gap == gap
        }) && !self.parties.is_pinned(key)
    }

    /// Tidy's last step.
    fn tidy(&mut self, n: u32, key: u32) -> Progress {
        let is_useless = self.is_useless(key);
        let event = if is_useless {
            self.descriptors.remove(key);
            self.tree.remove_key(n, key);
            Event::Tidied
        } else {
            Event::Declined
        };
        self.reach(0, Stage::Idle, Some(event));
        Progress::Tidied(key, is_useless)
    }
}
