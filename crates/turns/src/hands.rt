// Hands: what a call means for the request in hand and for the logical model, read off the call and its answer alone.
use books::book::Book;
use books::call::{Call, Said};
use books::counts::What;
use schedules::content::{Membership, with_pair};
use schedules::requests::{Code, Request};
use schedules::side::PARTIES;

// The first pairs of the store's list, so many, as one number. They have to rise.
fn pairs(b: &Book, n: u32) -> u32 {
    let mut pairs = 0;
    let mut last = 0u64;
    for pair in b.round.store_list.chunks_exact(2).take(n as usize) {
        let m = Membership {
            key: pair[0],
            entry: pair[1],
        };
        let next = 64 * m.key as u64 + m.entry as u64;
        if next <= last {
            return 0;
        }
        last = next;
        pairs = with_pair(pairs, m);
    }
    pairs
}

// What a request answered; of a locate, the pairs of the list.
fn answered(b: &Book, request: Request, answer: u32) -> u32 {
    if request.code == Code::Locate as u32 {
        pairs(b, answer)
    } else {
        answer
    }
}

// A request of a session is finished.
fn finish(b: &mut Book, p: u32, answer: u32) {
    if p != 0 {
        b.counts.requests.count();
        let request = b.round.party(p).request;
        let answer = answered(b, request, answer);
        b.round.party_mut(p).log.push(request, answer);
    }
}

fn after_step(b: &mut Book, p: u32, said: Said) {
    if let Said::Done { answer, .. } = said {
        finish(b, p, answer);
    }
    match said {
        Said::Wait(_) => b.round.party_mut(p).waited = true,
        _ if said.is_still() => {}
        _ => b.round.party_mut(p).waited = false,
    }
}

// Session p has ended: what it has finished ran on the content as it answered, or else the first request that did not has this number.
fn after_end(b: &mut Book, p: u32, what: What, wrong: Option<usize>) {
    if let Some(i) = wrong {
        b.differ(what, u32::try_from(i).unwrap_or(u32::MAX), 0);
    }
    b.round.party_mut(p).end();
}

// Session p is committed: what it has finished runs on the content.
fn after_commit(b: &mut Book, p: u32) {
    b.counts.committed.count();
    let log = b.round.party(p).log;
    let wrong = log.replay(&mut b.round.content);
    after_end(b, p, What::Commit, wrong);
}

// Session p is aborted: it runs on a copy, and the content is as it was.
fn after_abort(b: &mut Book, p: u32) {
    b.counts.unfinished.count();
    let mut copy = b.round.content;
    let wrong = b.round.party(p).log.replay(&mut copy);
    after_end(b, p, What::Unfinished, wrong);
}

// A recover aborts the sessions that are begun and not asked.
fn after_recover(b: &mut Book) {
    for p in 1..PARTIES as u32 {
        let party = b.round.party(p);
        if party.is_begun && !party.is_asked {
            after_abort(b, p);
        }
    }
}

// A call that was answered by ok.
fn after_ok(b: &mut Book, c: Call) {
    match c {
        Call::Begin(p) => b.round.party_mut(p).is_begun = true,
        Call::Ask(p) => b.round.party_mut(p).is_asked = true,
        Call::Recover => after_recover(b),
        Call::Put(p, request) => {
            let party = b.round.party_mut(p);
            party.request = request;
            party.waited = false;
        }
        Call::Commit(p) => after_commit(b, p),
        Call::Abort(p) => after_abort(b, p),
        _ => {}
    }
}

// The store answered a call by this, and the lists are those that it left.
pub fn after(b: &mut Book, c: Call, said: Said) {
    match c {
        Call::Step { party, .. } => after_step(b, party, said),
        _ if said == Said::Ok => after_ok(b, c),
        _ => {}
    }
}
