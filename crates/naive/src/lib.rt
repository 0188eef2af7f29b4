// Naive: a second model of the whole entry store, written from document 01 and document 02's M-101, M-104 and M-105 alone, to be run beside the store and
// compared with it.
//
// The model is one plain struct: the entries, the descriptors rising by key with their groups as sets of bits, the tree nodes, the parties, the begun
// sessions in the order in which they began, an undo log in order of time, and a count of free records. There are no records and no chains. Latches and pins
// are not kept: they follow from the stages of the requests in hand. That a session is asked is a stage too. Whom a wait names is read off the order of
// begins, and not off the numbers that the sessions have in it. It is made for M from 1 to 32 and every R; a larger M that document 01 allows is formatted,
// and its entries above 32 read as 0.
//
// It promises that every function is safe and ends. That it does what these documents say is tested and not proved. It rests on naive_tree for its
// descriptors and tree, on naive_steps for the descent, the parties, the order of begins and the undo log.
#![tactic(auto)]

mod request;

use naive_steps::descent::{Plan, Wait};
use naive_steps::party::{Code, PARTIES, Party, Request, Stage, Step, alone, bit};
pub use naive_steps::party::{Progress, Refusal};
use naive_steps::state::State;
use naive_tree::events::Event;

/// The second model.
#[derive(Drop)]
pub struct Model {
    entry_count: u32,
    state: State,
}

// The words that a store has for its header, an entry and a record, and how many entries and records it has at most.
const HEADER_WORDS: u32 = 16;

const ENTRY_WORDS: u32 = 3;

const RECORD_WORDS: u32 = 20;

const MOST_ENTRIES: u32 = 1024;

const MOST_RECORDS: u32 = 4096;

/// How many records a store of m entries in so many words has.
fn records_of(m: u32, length: u32) -> Option<u32> {
    if m < 1 || MOST_ENTRIES < m {
        return None;
    }
    let room = length.checked_sub(HEADER_WORDS + ENTRY_WORDS * m)? / RECORD_WORDS;
    if room < 8 {
        return None;
    }
    Some(room.min(MOST_RECORDS))
}

fn is_key(key: u32) -> bool {
    key != 0 && key != u32::MAX
}

/// A party that is begun.
fn begun(party: Party) -> Result<Party, Refusal> {
    if party.is_begun() {
        Ok(party)
    } else {
        Err(Refusal::Begun)
    }
}

/// May a party put a request or be asked? No asked session may.
fn open(party: Party) -> Result<Party, Refusal> {
    match party.stage {
        Stage::NotBegun => Err(Refusal::Begun),
        Stage::Idle => Ok(party),
        Stage::Asked => Err(Refusal::Asked),
        Stage::InHand(_) => Err(Refusal::InHand),
    }
}

impl Model {
    /// A model that is not formatted.
    pub fn new() -> Model {
        Model {
            entry_count: 0,
            state: State::new(),
        }
    }

    /// Makes a fresh store with m entries in so many words: there are a root and key 0, and the counts of events go on.
    pub fn format(&mut self, m: u32, length: u32) -> Result<(), Refusal> {
        let records = records_of(m, length).ok_or(Refusal::Sizes)?;
        self.entry_count = m;
        self.state.reset(records);
        Ok(())
    }

    fn party(&self, p: u32) -> Result<Party, Refusal> {
        if p < PARTIES as u32 {
            Ok(self.state.parties.get(p))
        } else {
            Err(Refusal::Party)
        }
    }

    fn session(&self, p: u32) -> Result<Party, Refusal> {
        if p == 0 {
            return Err(Refusal::Party);
        }
        self.party(p)
    }

    pub fn begin(&mut self, p: u32) -> Result<(), Refusal> {
        if self.session(p)?.is_begun() {
            return Err(Refusal::Begun);
        }
        let is_renumbered = self.state.number_all();
        self.state.counts.note_if(is_renumbered, Event::Renumbered);
        self.state.add_last(p);
        self.state.parties.set_stage(p, Stage::Idle);
        Ok(())
    }

    /// The request that these numbers are. Only a locate has a second key, and a tidy is about the next stored key above its first.
    fn request(
        &self,
        p: u32,
        code: u32,
        entry: u32,
        first: u32,
        second: u32,
    ) -> Result<Request, Refusal> {
        let code = Code::try_from(code)?;
        if (p == 0) != (code == Code::Tidy) {
            return Err(Refusal::Code);
        }
        let is_entry = 1 <= entry && entry <= self.entry_count;
        match code {
            Code::Read | Code::Write | Code::Insert | Code::Remove if !is_entry => {
                Err(Refusal::Entry)
            }
            Code::Insert | Code::Remove if !is_key(first) => Err(Refusal::Key),
            Code::Locate if !is_key(first) || !is_key(second) => Err(Refusal::Key),
            Code::Locate if second < first => Err(Refusal::Order),
            Code::Tidy => Ok(Request {
                code,
                entry: 0,
                first: self.state.descriptors.above(first).map_or(0, |d| d.key),
                second,
            }),
            _ => Ok(Request {
                code,
                entry,
                first,
                second,
            }),
        }
    }

    /// Puts a request. Its descent goes to its first key, and a locate takes the lowest one above the one before that. A tidy with nothing above its first has
    /// no descent.
    pub fn put(
        &mut self,
        p: u32,
        code: u32,
        entry: u32,
        first: u32,
        second: u32,
    ) -> Result<(), Refusal> {
        let mut party = self.party(p)?;
        self.state
            .counts
            .note_if(party.is_asked(), Event::PutWhenAsked);
        open(party)?;
        let request = self.request(p, code, entry, first, second)?;
        let step = match request.code {
            Code::Locate => Step::Enter,
            Code::Tidy if self.state.descriptors.above(first).is_some() => Step::Enter,
            _ => Step::Start,
        };
        party.stage = Stage::InHand(step);
        party.request = request;
        party.target = request.first;
        party.last = request.first.wrapping_sub(1);
        self.state.parties.set(p, party);
        Ok(())
    }

    /// One step of the request in hand. A locate that is done gets its list.
    pub fn step(&mut self, list: &mut [u32], p: u32) -> Result<Progress, Refusal> {
        let party = begun(self.party(p)?)?;
        let Stage::InHand(step) = party.stage else {
            return Err(Refusal::InHand);
        };
        let progress = self.try_step(p, step, list.len())?;
        if party.request.code == Code::Locate && matches!(progress, Progress::Done(_)) {
            self.list_groups(list, party.request);
        }
        Ok(progress)
    }

    /// What a step takes, with room for so many words in its list.
    fn plan(&self, p: u32, step: Step, room: usize) -> Plan {
        match step {
            Step::Start => self.entry_plan(p),
            Step::Enter => self.state.root_plan(p),
            Step::At(n) => self.state.way_plan(p, n),
            Step::Change => self.group_plan(p),
            Step::Take => self.key_plan(p, room),
        }
    }

    fn count_wait(&mut self, wait: Wait) {
        let is_latch = wait.event == Event::LatchWait;
        let is_many = 1 < wait.parties.count_ones();
        let is_lowest = alone(wait.named).wrapping_sub(1) & wait.parties == 0;
        let counts = &mut self.state.counts;
        counts.note(wait.event);
        counts.note_if(is_many && !is_latch, Event::SeveralWait);
        counts.note_if(is_many && is_latch, Event::TwoLatched);
        counts.note_if(is_many && !is_lowest, Event::NotLowest);
    }

    /// A step is made unless it waits or is refused. A refusal inside a step ends the request.
    fn try_step(&mut self, p: u32, step: Step, room: usize) -> Result<Progress, Refusal> {
        let plan = self.plan(p, step, room);
        if let Some(wait) = plan.wait {
            self.count_wait(wait);
            return Ok(Progress::Wait(wait.named));
        }
        if let Some(refusal) = plan.refusal {
            self.state.parties.set_stage(p, Stage::Idle);
            return Err(refusal);
        }
        if let Some(lock) = plan.lock {
            self.take_lock(p, lock);
        }
        Ok(self.make_step(p, step))
    }

    fn make_step(&mut self, p: u32, step: Step) -> Progress {
        match step {
            Step::Start => self.start(p),
            Step::Enter => self.state.enter(p),
            Step::At(n) => self.state.go_down(p, n),
            Step::Change => self.change(p),
            Step::Take => self.take(p),
        }
    }

    /// Asks session p, so that only commit and abort remain to it.
    pub fn ask(&mut self, p: u32) -> Result<(), Refusal> {
        let mut party = self.session(p)?;
        self.state.counts.note_if(party.is_asked(), Event::AskAgain);
        self.state
            .counts
            .note_if(party.is_in_hand(), Event::AskInHand);
        open(party)?;
        party.recovers = 0;
        self.state.parties.set(p, party);
        self.state.reach(p, Stage::Asked, Some(Event::AskTaken));
        Ok(())
    }

    /// Commits session p, which has nothing in hand, asked or not.
    pub fn commit(&mut self, p: u32) -> Result<(), Refusal> {
        let party = begun(self.session(p)?)?;
        if party.is_in_hand() {
            return Err(Refusal::InHand);
        }
        let is_late = party.is_asked() && party.recovers != 0;
        let counts = &mut self.state.counts;
        counts.note_if(party.is_asked(), Event::AskedCommit);
        counts.note_if(is_late, Event::RecoveredCommit);
        let is_changed = self.end(p, false);
        self.state
            .counts
            .note_if(is_changed, Event::CommitWithUndos);
        Ok(())
    }

    pub fn abort(&mut self, p: u32) -> Result<(), Refusal> {
        let party = begun(self.session(p)?)?;
        self.end_undone(p, party);
        Ok(())
    }

    /// Session p is aborted.
    fn end_undone(&mut self, p: u32, party: Party) {
        let counts = &mut self.state.counts;
        counts.note_if(party.is_in_hand(), Event::AbortInHand);
        counts.note_if(party.is_asked(), Event::AskedAbort);
        self.end(p, true);
    }

    /// Session p ends: it holds nothing and is not begun. Had it changed anything?
    fn end(&mut self, p: u32, is_undone: bool) -> bool {
        let is_changed = self.state.end_records(p, is_undone);
        self.let_go(bit(p));
        self.state.leave(p);
        self.state.parties.set_stage(p, Stage::NotBegun);
        is_changed
    }

    /// The session of this bit holds nothing.
    fn let_go(&mut self, bit: u32) {
        self.state.descriptors.let_go(bit);
        for entry in self.state.entries.iter_mut() {
            entry.share &= !bit;
            entry.exclusive &= !bit;
        }
    }

    /// What a recover does to session p: one that is asked stays, any other that is begun is aborted.
    fn recover_one(&mut self, p: u32) {
        let mut party = self.state.parties.get(p);
        if party.is_asked() {
            party.recovers = party.recovers.wrapping_add(1);
            self.state.parties.set(p, party);
            self.state.counts.note(Event::LeftByRecover);
        } else if party.is_begun() {
            let counts = &mut self.state.counts;
            counts.note(Event::AbortedByRecover);
            counts.note_if(party.is_at_node(), Event::CutAtNode);
            self.end_undone(p, party);
        }
    }

    /// Housekeeping ends: its request, and its latch with it.
    fn end_housekeeping(&mut self) {
        let party = self.state.parties.get(0);
        let counts = &mut self.state.counts;
        counts.note_if(party.is_in_hand(), Event::TidyEnded);
        counts.note_if(party.is_at_node(), Event::TidyEndedAtNode);
        self.state.parties.set_stage(0, Stage::Idle);
    }

    /// Every session that is not asked is aborted, the last one first, and then housekeeping ends.
    pub fn recover(&mut self) {
        for p in (1..PARTIES as u32).rev() {
            self.recover_one(p);
        }
        self.end_housekeeping();
        self.state.counts.note(Event::Recovered);
    }

    /// The value of an entry.
    pub fn value(&self, e: u32) -> u32 {
        self.state.entry(e).value
    }

    /// The share holders of an entry.
    pub fn share(&self, e: u32) -> u32 {
        self.state.entry(e).share
    }

    /// The exclusive holders of an entry.
    pub fn exclusive(&self, e: u32) -> u32 {
        self.state.entry(e).exclusive
    }

    pub fn stored(&self, key: u32) -> bool {
        self.state.descriptors.is_stored(key)
    }

    /// The locate holders of a key: those of the gap that it lies in where it is not stored.
    pub fn locate_holders(&self, key: u32) -> u32 {
        self.state.descriptors.locate_holders(key)
    }

    /// The update holders of a key.
    pub fn update_holders(&self, key: u32) -> u32 {
        self.state.descriptors.of(key).map_or(0, |d| d.update)
    }

    /// The group of a key: bit e - 1 for entry e.
    pub fn members(&self, key: u32) -> u32 {
        self.state.descriptors.of(key).map_or(0, |d| d.group)
    }

    /// How many descriptors there are.
    pub fn descriptors(&self) -> u32 {
        self.state.descriptors.count()
    }

    /// How many nodes there are.
    pub fn nodes(&self) -> u32 {
        self.state.tree.count()
    }

    /// How many levels of nodes there are.
    pub fn height(&self) -> u32 {
        self.state.tree.height()
    }

    /// How many records are free.
    pub fn free(&self) -> u32 {
        self.state.free()
    }

    /// How many sessions are begun.
    pub fn begun_count(&self) -> u32 {
        self.state.line.count()
    }

    pub fn begun(&self, p: u32) -> bool {
        self.state.parties.get(p).is_begun()
    }

    pub fn asked(&self, p: u32) -> bool {
        self.state.parties.get(p).is_asked()
    }

    pub fn in_hand(&self, p: u32) -> bool {
        self.state.parties.get(p).is_in_hand()
    }

    /// The place of session p among the begun ones, from 1.
    pub fn place_in_line(&self, p: u32) -> Option<u32> {
        self.state.line.place_of(p)
    }

    /// The number of a party in the order of begins.
    pub fn order(&self, p: u32) -> u32 {
        self.state.parties.get(p).order
    }

    /// Gives a party another number. A store goes by the numbers of its table, so whoever gives them to both keeps those of begun sessions in order.
    pub fn set_order(&mut self, p: u32, x: u32) {
        self.state.parties.set_order(p, x);
    }

    /// How often an event was since the model was made, by its number. A root dropped and split in one step counts as each of the two, and as both.
    pub fn counted(&self, event: u32) -> u32 {
        self.state.counts.get(event)
    }
}

impl Default for Model {
    fn default() -> Model {
        Model::new()
    }
}
