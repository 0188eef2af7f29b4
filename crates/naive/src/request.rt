// Request: the steps of the six requests outside the descent.
use super::Model;
use naive_steps::descent::{Lock, Plan, Wait};
use naive_steps::party::{Code, Progress, Refusal, Request, Stage, Step, bit, others};
use naive_steps::undo::Word;
use naive_tree::events::Event;
use naive_tree::keys::{Descriptor, count_members};

impl Model {
    fn request_of(&self, p: u32) -> Request {
        self.state.parties.get(p).request
    }

    /// The descriptor of the first key of a party's request.
    fn group_of(&self, p: u32) -> Descriptor {
        let key = self.request_of(p).first;
        self.state.descriptors.at_or_below(key).unwrap_or_default()
    }

    /// The descriptor that a party takes next.
    fn next_of(&self, p: u32) -> Descriptor {
        let key = self.state.parties.get(p).last;
        self.state.descriptors.above(key).unwrap_or_default()
    }

    /// A step that needs a lock, with these holders in conflict: a wait names the one of the others that began first.
    fn lock_plan(
        &self,
        p: u32,
        holders: u32,
        event: Event,
        refusal: Option<Refusal>,
        lock: Lock,
    ) -> Plan {
        let parties = others(holders, p);
        Plan {
            wait: self.state.line.first_of(parties).map(|named| Wait {
                named,
                parties,
                event,
            }),
            refusal,
            lock: Some(lock),
        }
    }

    /// The first step of a request: a read shares the entry, a write, insert or remove has it alone.
    pub(crate) fn entry_plan(&self, p: u32) -> Plan {
        let request = self.request_of(p);
        let e = request.entry;
        let entry = self.state.entry(e);
        let (holders, lock) = match request.code {
            Code::Read => (entry.exclusive, Lock::Share(e)),
            _ => (entry.share | entry.exclusive, Lock::Exclusive(e)),
        };
        let refusal = self.state.lack((request.code == Code::Write) as u32);
        self.lock_plan(p, holders, Event::EntryWait, refusal, lock)
    }

    /// The last step of an insert or remove, which only those that locate the key keep waiting. An insert needs a record for the membership and one for the
    /// log; the record of a membership that is taken out becomes the undo record.
    pub(crate) fn group_plan(&self, p: u32) -> Plan {
        let group = self.group_of(p);
        let need = if self.change_event(p) == Event::Added {
            2
        } else {
            0
        };
        let refusal = self.state.lack(need);
        self.lock_plan(
            p,
            group.locate,
            Event::KeyWait,
            refusal,
            Lock::Update(group.key),
        )
    }

    /// A locate's step to its next key. With the last one it must have room in its list for all that it finds.
    pub(crate) fn key_plan(&self, p: u32, room: usize) -> Plan {
        let next = self.next_of(p);
        let count = self.found(p);
        let is_short = self.is_last(p) && room < count.saturating_mul(2) as usize;
        let refusal = is_short.then_some(Refusal::List(count));
        self.lock_plan(
            p,
            next.update,
            Event::KeyWait,
            refusal,
            Lock::Locate(next.key),
        )
    }

    /// Party p takes a lock.
    pub(crate) fn take_lock(&mut self, p: u32, lock: Lock) {
        match lock {
            Lock::Share(e) => {
                let mut entry = self.state.entry(e);
                entry.share |= bit(p);
                self.state.set_entry(e, entry);
            }
            Lock::Exclusive(e) => {
                let mut entry = self.state.entry(e);
                entry.exclusive |= bit(p);
                self.state.set_entry(e, entry);
            }
            Lock::Locate(key) => {
                if let Some(mut d) = self.state.descriptors.of(key) {
                    d.locate |= bit(p);
                    self.state.descriptors.replace(d);
                }
            }
            Lock::Update(key) => {
                if let Some(mut d) = self.state.descriptors.of(key) {
                    d.update |= bit(p);
                    self.state.descriptors.replace(d);
                }
            }
        }
    }

    /// Is the key that a locate takes next its last?
    fn is_last(&self, p: u32) -> bool {
        self.next_of(p).key == self.request_of(p).second
    }

    /// How many memberships a locate finds.
    fn found(&self, p: u32) -> u32 {
        let request = self.request_of(p);
        count_members(
            self.state
                .descriptors
                .between(request.first, request.second),
        )
    }

    /// The first step of a request, with the entry's lock. A tidy that comes here has nothing above its first.
    pub(crate) fn start(&mut self, p: u32) -> Progress {
        let request = self.request_of(p);
        let e = request.entry;
        let (event, answer) = match request.code {
            Code::Insert | Code::Remove => {
                self.state.reach(p, Stage::InHand(Step::Enter), None);
                return Progress::More;
            }
            Code::Read => (Event::ReadDone, self.state.entry(e).value),
            Code::Write => {
                let word = Word::Value(e);
                self.state
                    .change_word(p, Event::ValueUndone, word, request.first);
                (Event::WriteDone, 0)
            }
            Code::Locate | Code::Tidy => (Event::NothingAbove, 0),
        };
        self.state.reach(p, Stage::Idle, Some(event));
        Progress::Done(answer)
    }

    /// The event that counts an insert or remove: of an entry that comes in, or is in; of one that goes out, or is out.
    fn change_event(&self, p: u32) -> Event {
        let request = self.request_of(p);
        let is_member = self.group_of(p).group & bit(request.entry) != 0;
        match (request.code, is_member) {
            (Code::Insert, false) => Event::Added,
            (Code::Insert, true) => Event::WasMember,
            (_, true) => Event::TakenOut,
            (_, false) => Event::WasAbsent,
        }
    }

    /// Counts an insert or remove at a key where others have the group's lock too.
    fn count_together(&mut self, p: u32) {
        let n = others(self.group_of(p).update, p).count_ones();
        self.state.counts.note_if(0 < n, Event::UpdatedToo);
        self.state.counts.note_if(1 < n, Event::UpdatedByMany);
    }

    /// The last step of an insert or remove, with the group's lock.
    pub(crate) fn change(&mut self, p: u32) -> Progress {
        self.count_together(p);
        let request = self.request_of(p);
        let turned = self.group_of(p).group ^ bit(request.entry);
        let word = Word::Group(request.first);
        let event = self.change_event(p);
        let undone = match event {
            Event::Added => Some(Event::InsertUndone),
            Event::TakenOut => Some(Event::RemoveUndone),
            _ => None,
        };
        if let Some(undone) = undone {
            self.state.change_word(p, undone, word, turned);
        }
        self.state.reach(p, Stage::Idle, Some(event));
        Progress::Done(undone.is_some() as u32)
    }

    /// A locate takes a key: with its last it is done, else it takes the gap behind it too and goes on.
    pub(crate) fn take(&mut self, p: u32) -> Progress {
        if self.is_last(p) {
            let count = self.found(p);
            self.state.reach(p, Stage::Idle, Some(Event::LocateDone));
            return Progress::Done(count);
        }
        let mut next = self.next_of(p);
        next.gap |= bit(p);
        self.state.descriptors.replace(next);
        let mut party = self.state.parties.get(p);
        party.last = next.key;
        self.state.parties.set(p, party);
        self.state.counts.note(Event::KeyTaken);
        Progress::More
    }

    /// Lists the memberships that a locate found, rising by key and by entry, each as its key and its entry.
    pub(crate) fn list_groups(&self, list: &mut [u32], request: Request) {
        let mut n = 0;
        for d in self
            .state
            .descriptors
            .between(request.first, request.second)
        {
            for e in 1..=32 {
                if d.group & bit(e) != 0 {
                    put_pair(list, n, d.key, e);
                    n = n.saturating_add(2);
                }
            }
        }
    }
}

/// Puts a key and an entry at a place of a list. What lies behind the list is lost.
fn put_pair(list: &mut [u32], at: usize, key: u32, entry: u32) {
    if let Some(word) = list.get_mut(at) {
        *word = key;
    }
    if let Some(word) = list.get_mut(at.saturating_add(1)) {
        *word = entry;
    }
}
