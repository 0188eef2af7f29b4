// Shares: how often the sessions do what, by what they are mostly at.
use books::book::Phase;
use schedules::requests::Code;

// Of 32 sessions that have finished something, how many commit; of 32 calls, how many are the housekeeper's; of 8 keys, how many are stored ones; of how
// many calls one is a recover. Of 32 requests, which are reads, writes, inserts and removes: those below these limits, and locates the rest.
#[derive(Clone, Copy)]
pub struct Shares {
    pub commits: u32,
    pub housekeeper: u32,
    pub stored: u32,
    pub recovers: u32,
    reads: u32,
    writes: u32,
    inserts: u32,
    removes: u32,
}

const GROW: Shares = Shares {
    commits: 6,
    housekeeper: 2,
    stored: 1,
    recovers: 250,
    reads: 2,
    writes: 5,
    inserts: 23,
    removes: 25,
};

const MIX: Shares = Shares {
    commits: 5,
    housekeeper: 5,
    stored: 4,
    recovers: 180,
    reads: 5,
    writes: 10,
    inserts: 19,
    removes: 25,
};

const SHRINK: Shares = Shares {
    commits: 14,
    housekeeper: 16,
    stored: 7,
    recovers: 200,
    reads: 1,
    writes: 2,
    inserts: 3,
    removes: 30,
};

const RISE: Shares = Shares {
    commits: 8,
    housekeeper: 1,
    stored: 0,
    recovers: 600,
    reads: 1,
    writes: 2,
    inserts: 16,
    removes: 16,
};

impl Shares {
    pub fn at(phase: Phase) -> Self {
        match phase {
            Phase::Grow => GROW,
            Phase::Mix => MIX,
            Phase::Shrink => SHRINK,
            Phase::Rise => RISE,
        }
    }

    // What a request asks for, where k is one of 32.
    pub fn code(&self, k: u32) -> Code {
        if k < self.reads {
            Code::Read
        } else if k < self.writes {
            Code::Write
        } else if k < self.inserts {
            Code::Insert
        } else if k < self.removes {
            Code::Remove
        } else {
            Code::Locate
        }
    }
}
