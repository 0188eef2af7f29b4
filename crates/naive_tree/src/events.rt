// Events: what the model counts, in the order in which they are reported.

/// What the model counts. Its number is its place in the report.
#[derive(Clone, Copy, PartialEq, Eq, Debug)]
pub enum Event {
    RootSplit,
    NodeSplit,
    JoinedLeft,
    JoinedRight,
    MovedFromLeft,
    MovedFromRight,
    RootDropped,
    /// In one step; counted as each of the two as well.
    DroppedAndSplit,
    Made,
    MadeInHeldGap,
    Tidied,
    Declined,
    NothingAbove,
    Added,
    WasMember,
    TakenOut,
    WasAbsent,
    ReadDone,
    WriteDone,
    LocateDone,
    KeyTaken,
    EntryWait,
    KeyWait,
    LatchWait,
    /// Of the waits for an entry or a key: several sessions are in the way. Counted among the waits as well, as the next two are.
    SeveralWait,
    /// Of the waits for a short lock: two parties are in the way.
    TwoLatched,
    /// Of both: the wait names another than the lowest.
    NotLowest,
    ValueUndone,
    InsertUndone,
    RemoveUndone,
    AbortInHand,
    CommitWithUndos,
    /// A begin that gave a session another number than it had.
    Renumbered,
    /// An insert or remove at a key that another session has inserted or removed at and not ended.
    UpdatedToo,
    /// Of these, one with two such sessions and more.
    UpdatedByMany,
    /// An insert or remove that is taken back while another session's newer one at the same key stands.
    UndoneUnderNewer,
    /// The same while another's older one does.
    UndoneOverOlder,
    AskTaken,
    /// An ask that is refused since the session is asked.
    AskAgain,
    /// An ask that is refused since the session has a request in hand.
    AskInHand,
    PutWhenAsked,
    AskedCommit,
    /// Of these, one that has lived through a recover since it was asked.
    RecoveredCommit,
    AskedAbort,
    Recovered,
    AbortedByRecover,
    /// Of these, one with a request in hand at a node.
    CutAtNode,
    /// A session that is asked and that a recover leaves.
    LeftByRecover,
    /// A recover that ends a tidy in hand.
    TidyEnded,
    /// Of these, one at a node.
    TidyEndedAtNode,
}

/// How many events there are.
pub const EVENTS: usize = 50;

/// How often each event was.
#[derive(Clone, Copy)]
pub struct Counts {
    counts: [u32; EVENTS],
}

impl Counts {
    pub fn new() -> Counts {
        Counts {
            counts: [0; EVENTS],
        }
    }

    pub fn note(&mut self, event: Event) {
        if let Some(n) = self.counts.get_mut(event as usize) {
            *n = n.wrapping_add(1);
        }
    }

    pub fn note_if(&mut self, is_so: bool, event: Event) {
        if is_so {
            self.note(event);
        }
    }

    /// How often the event of this number was.
    pub fn get(&self, number: u32) -> u32 {
        self.counts.get(number as usize).copied().unwrap_or(0)
    }
}

impl Default for Counts {
    fn default() -> Counts {
        Counts::new()
    }
}
