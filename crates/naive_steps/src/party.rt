// Party: sessions and housekeeper, the stages of their requests, and what is told of a call.

/// How many parties there are: the housekeeper, party 0, and the sessions from 1 on.
pub const PARTIES: usize = 17;

/// What a request asks for.
#[derive(Clone, Copy, Default, PartialEq, Eq, Debug)]
pub enum Code {
    #[default]
    Read,
    Write,
    Insert,
    Remove,
    Locate,
    Tidy,
}

impl TryFrom<u32> for Code {
    type Error = Refusal;

    fn try_from(code: u32) -> Result<Code, Refusal> {
        match code {
            1 => Ok(Code::Read),
            2 => Ok(Code::Write),
            3 => Ok(Code::Insert),
            4 => Ok(Code::Remove),
            5 => Ok(Code::Locate),
            6 => Ok(Code::Tidy),
            _ => Err(Refusal::Code),
        }
    }
}

/// A request as it was put. Of a tidy the first key is the next stored one above the one that was put.
#[derive(Clone, Copy, Default)]
pub struct Request {
    pub code: Code,
    pub entry: u32,
    pub first: u32,
    pub second: u32,
}

/// How far a request in hand is: before its first step or with nothing to descend to, before the root, at a node, which it has latched, before an insert's
/// or remove's last step, while a locate takes its keys.
#[derive(Clone, Copy, PartialEq, Eq, Debug)]
pub enum Step {
    Start,
    Enter,
    At(u32),
    Change,
    Take,
}

/// How far a party is. A session that is asked has no request in hand.
#[derive(Clone, Copy, Default, PartialEq, Eq, Debug)]
pub enum Stage {
    #[default]
    NotBegun,
    Idle,
    Asked,
    InHand(Step),
}

/// A party: how far it is, its request in hand or the last one, the key that the descent goes to, the last key that a locate took, its number in the order
/// of begins, and how many recovers it has lived through since it was asked.
#[derive(Clone, Copy, Default)]
pub struct Party {
    pub stage: Stage,
    pub request: Request,
    pub target: u32,
    pub last: u32,
    pub order: u32,
    pub recovers: u32,
}

impl Party {
    pub fn is_begun(self) -> bool {
        self.stage != Stage::NotBegun
    }

    pub fn is_asked(self) -> bool {
        self.stage == Stage::Asked
    }

    pub fn is_in_hand(self) -> bool {
        matches!(self.stage, Stage::InHand(_))
    }

    pub fn is_at_node(self) -> bool {
        matches!(self.stage, Stage::InHand(Step::At(_)))
    }

    /// Does its request pin the key? An insert or remove pins its key from its arrival to its end; a locate pins each of its two keys so, and goes on to
    /// second once it has pinned first.
    fn pins(self, key: u32) -> bool {
        let Stage::InHand(step) = self.stage else {
            return false;
        };
        let is_past = self.target != key || step == Step::Change;
        self.request.first == key && is_past || self.request.second == key && step == Step::Take
    }
}

/// All parties. One that there is not reads as one that is not begun, and a write to it does nothing.
#[derive(Clone, Copy)]
pub struct Parties {
    all: [Party; PARTIES],
}

impl Parties {
    /// The housekeeper is always begun, and no session is.
    pub fn new() -> Parties {
        let mut parties = Parties {
            all: [Party::default(); PARTIES],
        };
        parties.set_stage(0, Stage::Idle);
        parties
    }

    pub fn get(&self, p: u32) -> Party {
        self.all.get(p as usize).copied().unwrap_or_default()
    }

    pub fn set(&mut self, p: u32, x: Party) {
        if let Some(party) = self.all.get_mut(p as usize) {
            *party = x;
        }
    }

    pub fn set_stage(&mut self, p: u32, stage: Stage) {
        if let Some(party) = self.all.get_mut(p as usize) {
            party.stage = stage;
        }
    }

    pub fn set_order(&mut self, p: u32, order: u32) {
        if let Some(party) = self.all.get_mut(p as usize) {
            party.order = order;
        }
    }

    /// The party other than p with a latch on the node.
    pub fn latched_by(&self, p: u32, n: u32) -> Option<u32> {
        (0..PARTIES as u32).find(|&q| q != p && self.get(q).stage == Stage::InHand(Step::At(n)))
    }

    /// Does some request pin the key?
    pub fn is_pinned(&self, key: u32) -> bool {
        self.all.iter().any(|party| party.pins(key))
    }
}

impl Default for Parties {
    fn default() -> Parties {
        Parties::new()
    }
}

/// What a step that was not refused says: there is more to do; it waits, and this party is in the way; the request is done, with its answer; a tidy is
/// done, with its key and whether that was removed.
#[derive(Clone, Copy, PartialEq, Eq, Debug)]
pub enum Progress {
    More,
    Wait(u32),
    Done(u32),
    Tidied(u32, bool),
}

/// Why a call is refused.
#[derive(Clone, Copy, PartialEq, Eq, Debug)]
pub enum Refusal {
    /// A format of no entries, of too many or of too few words.
    Sizes,
    /// No such party.
    Party,
    /// The session is not begun, or at a begin it is.
    Begun,
    /// No such request, or not one of this party.
    Code,
    /// There is a request in hand, or at a step there is none.
    InHand,
    /// No such entry.
    Entry,
    /// No such key.
    Key,
    /// The second key lies below the first.
    Order,
    /// Too few records are free.
    Records,
    /// The list has no room for so many memberships.
    List(u32),
    /// The session is asked.
    Asked,
}

impl Refusal {
    /// The number of the refusal.
    pub fn number(self) -> u32 {
        match self {
            Refusal::Sizes => 3,
            Refusal::Party => 4,
            Refusal::Begun => 5,
            Refusal::Code => 6,
            Refusal::InHand => 7,
            Refusal::Entry => 8,
            Refusal::Key => 9,
            Refusal::Order => 10,
            Refusal::Records => 11,
            Refusal::List(_) => 12,
            Refusal::Asked => 21,
        }
    }

    /// The number beside it.
    pub fn beside(self) -> u32 {
        match self {
            Refusal::List(count) => count,
            _ => 0,
        }
    }
}

/// The bit of session s in a word of holders, of entry e in a group. Both are sets of bits, as the store has them: they are compared as such.
pub fn bit(e: u32) -> u32 {
    match e {
        1..=32 => 1 << (e - 1),
        _ => 0,
    }
}

/// The parties other than session p in a word of holders, party q as bit q.
pub fn others(holders: u32, p: u32) -> u32 {
    (holders & !bit(p)) << 1
}

/// Party p alone, as such a set.
pub fn alone(p: u32) -> u32 {
    if p < PARTIES as u32 { 1 << p } else { 0 }
}
