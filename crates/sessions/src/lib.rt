// Sessions: the record of the session table that each party has.
//
// Party 0 is the housekeeper, 1 to 16 are sessions; record p is party p's. A field that is not in use for the request and stage in hand
// may have any value. Nothing here says which records are sound. It rests on `locks` for how many sessions there are.
#![tactic(auto)]

// How many parties there are: the sessions and the housekeeper.
pub const PARTIES: usize = 17;

// What a request does. Its number is the code that put is handed and that the record keeps: a lent record's code and stage may be any
// word, so they stand there as words.
#[derive(Clone, Copy, PartialEq, Eq, Debug)]
pub enum Code {
    Read = 1,
    Write = 2,
    Insert = 3,
    Remove = 4,
    Locate = 5,
    Tidy = 6,
}

// Where a request stands; its number is the stage of its party's record.
#[derive(Clone, Copy, PartialEq, Eq, Debug)]
pub enum Stage {
    // No request is in hand.
    Idle = 0,
    Start = 1,
    EnterRoot = 2,
    AtNode = 3,
    Change = 4,
    Take = 5,
}

// In memory: its 15 words in this order, as a C program lends them.
#[repr(C)]
#[derive(Clone, Copy, PartialEq, Eq, Debug, Default)]
pub struct Session {
    // Not 0: the session is begun. Unused for party 0.
    pub begun: u32,
    // The request in hand, 1 to 6, and its arguments as they were put. In use where the stage is not 0, as all below but undo, order and asked.
    pub code: u32,
    pub entry: u32,
    pub first: u32,
    pub second: u32,
    // 0 no request in hand, 1 start, 2 enter the root, 3 at a node, 4 change, 5 take.
    pub stage: u32,
    // Stages 2 and 3: the key that the descent (document 01's walk) goes to; tidy's choice.
    pub target: u32,
    // Stage 3: the record of the latched node, and its level from below, 1 where its sons are descriptors.
    pub at: u32,
    pub level: u32,
    // Stages 4 and 5, and a locate's second descent: the record of the pinned descriptor of first.
    pub low: u32,
    // Stage 5, where second is not first: the record of the pinned descriptor of second.
    pub high: u32,
    // Stage 5: the last key that a locate took, 0 for none.
    pub last: u32,
    // The newest undo record (document 01's take-back), 0 for none. Unused for party 0.
    pub undo: u32,
    // The place in the order of begins: of two begun sessions the one with the lower number began first. Free where the session is not begun, and
    // for party 0.
    pub order: u32,
    // Not 0: the session is asked, so that only commit and abort remain to it. 0 for party 0.
    pub asked: u32,
}
