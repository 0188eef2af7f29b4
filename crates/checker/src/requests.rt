// Requests: the clauses on requests in hand.
use super::clauses::Clause;
use super::judge::{Item, Judge, Reached};
use super::store::INFINITY;
use super::table::{Code, Stage, is_begun, is_holder};
use sessions::Session;

/// How many descriptors a party pins: first's in a change, in a locate's second descent and while a locate takes, and then second's if it is another.
fn pinned(x: &Session) -> u32 {
    let is_second = x.target == x.second && x.target != x.first;
    match (Code::from(x.code), Stage::from(x.stage)) {
        (Code::Insert | Code::Remove, Stage::Change) => 1,
        (Code::Locate, Stage::Enter | Stage::At) if is_second => 1,
        (Code::Locate, Stage::Take) if x.first == x.second => 1,
        (Code::Locate, Stage::Take) => 2,
        _ => 0,
    }
}

fn is_descent(stage: Stage) -> bool {
    stage == Stage::Enter || stage == Stage::At
}

/// "walks match the requests in hand": the key that the descent goes to
fn is_target_right(x: &Session) -> bool {
    !is_descent(Stage::from(x.stage))
        || match Code::from(x.code) {
            Code::Insert | Code::Remove => x.target == x.first,
            Code::Locate => x.target == x.first || x.target == x.second,
            Code::Tidy => x.first < x.target,
            _ => true,
        }
}

/// "each request in hand passes the checks that put makes on .. arguments": the entry, the keys, their order, in a store of m entries. A code below the
/// first has an entry too.
fn are_arguments_right(x: &Session, m: u32) -> bool {
    let is_entry = 1 <= x.entry && x.entry <= m;
    let is_key = 1 <= x.first && x.first < INFINITY;
    match Code::from(x.code) {
        Code::Read | Code::Write => is_entry,
        Code::Insert | Code::Remove => is_entry && is_key,
        Code::Locate => is_key && x.first <= x.second && x.second < INFINITY,
        Code::Tidy => true,
        Code::Unknown => x.code != 0 || is_entry,
    }
}

/// "and stands where its own steps can bring it": the stages of its code
fn is_stage_right(x: &Session) -> bool {
    let stage = Stage::from(x.stage);
    match Code::from(x.code) {
        Code::Read | Code::Write => stage == Stage::Start,
        Code::Insert | Code::Remove => {
            is_descent(stage) || stage == Stage::Start || stage == Stage::Change
        }
        Code::Locate => is_descent(stage) || stage == Stage::Take,
        Code::Tidy => is_descent(stage) || stage == Stage::Start,
        Code::Unknown => true,
    }
}

impl Judge<'_, '_> {
    /// How many requests in hand pin the descriptor of a key.
    pub fn pins(&self, key: u32) -> usize {
        let table = self.table;
        table
            .iter()
            .filter(|x| {
                let all = pinned(x);
                0 < all && x.first == key || 1 < all && x.second == key
            })
            .count()
    }

    /// What is seized is stored, where the session record says.
    fn are_pins_named(&self, x: &Session) -> bool {
        let all = pinned(x);
        let is_low = x.low != 0 && self.descriptor_of(x.first) == Some(x.low);
        let is_high = x.high != 0 && self.descriptor_of(x.second) == Some(x.high);
        (all < 1 || is_low) && (all < 2 || is_high)
    }

    /// Does party p, that is at a node, keep a clause?
    fn walk_keeps(&self, clause: Clause, p: usize, x: &Session) -> bool {
        let Some(place) = self.place_of_node(x.at) else {
            return self.lost_walk_keeps(clause, p, x);
        };
        let level = match self.at(place).map(|item| item.reached) {
            Some(Reached::Node { level, .. }) => level,
            _ => 0,
        };
        match clause {
            // "short locks .. match the requests in hand": a party that is at a node has its latch
            Clause::Latches => self.store.latch(x.at) as usize == p.saturating_add(1),
            // "walks match the requests in hand": the level that the descent has come to
            Clause::Levels => level == x.level,
            // "with each short lock on the path to its key"
            Clause::OnPath => self.is_on_path(place, x.target),
            // "a session's short-locked node has at most 7 sons; the housekeeper's has at least 4, or is the root and has no lone node for a son"
            Clause::LatchedFanout => {
                let is_lone = self.store.count(x.at) == 1 && level != 1;
                self.is_fanout_right(p, x, place == 0 && !is_lone)
            }
            _ => true,
        }
    }

    /// The same of a party at a node that was not reached.
    fn lost_walk_keeps(&self, clause: Clause, p: usize, x: &Session) -> bool {
        match clause {
            Clause::Latches => false,
            Clause::LatchedFanout => self.is_fanout_right(p, x, false),
            _ => true,
        }
    }

    fn is_fanout_right(&self, p: usize, x: &Session, is_root: bool) -> bool {
        let count = self.store.count(x.at);
        if p == 0 {
            4 <= count || is_root
        } else {
            count <= 7
        }
    }

    /// What a locate of session p that has come from first to last holds at the leaf at a place: its key, if passed; its gap, if a key of it was passed, or
    /// if it is the highest stored key up to the last.
    fn is_passed_held(&self, place: usize, item: Item, p: usize, x: &Session) -> bool {
        if !item.is_descriptor() {
            return true;
        }
        let key = self.store.key(item.record);
        let above = self.key_above(place);
        let has_between = key < above && 1 < above - key;
        let is_gap_passed = has_between && key < x.last && x.first < above;
        let is_highest = key <= x.last && x.last < above;
        let is_passed = x.first <= key && key <= x.last;
        (!is_passed || is_holder(self.store.locate(item.record), p))
            && (!(is_gap_passed || is_highest) || is_holder(self.store.gap(item.record), p))
    }

    /// "a locate holds every key it has passed": from first to the last one taken, which lies below second
    fn are_passed_held(&self, p: usize, x: &Session) -> bool {
        if x.last == 0 {
            return true;
        }
        x.first <= x.last
            && x.last < x.second
            && self
                .items
                .iter()
                .enumerate()
                .all(|(place, item)| self.is_passed_held(place, *item, p, x))
    }

    /// "each request in hand passes the checks that put makes on code": a session is begun; tidy is the housekeeper's
    fn is_code_right(&self, p: usize, x: &Session) -> bool {
        match Code::from(x.code) {
            Code::Unknown => false,
            Code::Tidy => p == 0,
            _ => is_begun(self.table, p),
        }
    }

    /// Does party p keep a clause?
    pub fn party_keeps(&self, clause: Clause, p: usize, x: &Session) -> bool {
        let code = Code::from(x.code);
        let stage = Stage::from(x.stage);
        if stage == Stage::None {
            return true;
        }
        match clause {
            Clause::PinsNamed => self.are_pins_named(x),
            Clause::Codes => self.is_code_right(p, x),
            // past its first step an insert or remove has its entry's lock
            Clause::EntryLocks => {
                stage == Stage::Start
                    || code != Code::Insert && code != Code::Remove
                    || is_holder(self.store.exclusive(x.entry), p)
            }
            // "tidy's choice, if any, is stored"
            Clause::Choice => {
                code != Code::Tidy || !is_descent(stage) || self.descriptor_of(x.target).is_some()
            }
            Clause::Passed => {
                code != Code::Locate || stage != Stage::Take || self.are_passed_held(p, x)
            }
            Clause::Targets => is_target_right(x),
            Clause::Arguments => are_arguments_right(x, self.store.entries()),
            Clause::Stages => is_stage_right(x),
            _ => stage != Stage::At || self.walk_keeps(clause, p, x),
        }
    }
}
