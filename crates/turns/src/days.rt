// Days: what a day call means without the store: a refusal, or the put or step that it is, made on the second model with its answer renamed.
use crate::answers::see_call;
use crate::hands::after;
use crate::model::on_model;
use books::book::Book;
use books::call::{Call, DayCall, Kind, Said, Told};
use books::counts::What;
use naive::Model;
use schedules::days::{Day, Progress};
use schedules::requests::{Code, Request};
use schedules::side::{PARTIES, Side};

// A request of a day: code, entry, and value or key, which may be no words.
#[derive(Clone, Copy)]
struct DayRequest {
    code: Code,
    entry: u64,
    first: u64,
}

// The request that the place of a call names: at an even place a write of a value, at an odd one an insert at a key.
fn named(day: &Day, c: DayCall) -> DayRequest {
    let k = c.place / 2;
    let entry = c.entry as u64 + k as u64;
    if c.place % 2 == 0 {
        DayRequest {
            code: Code::Write,
            entry,
            first: day.value(k as usize) as u64,
        }
    } else {
        DayRequest {
            code: Code::Insert,
            entry,
            first: day.key(k as usize, c.driver, c.start),
        }
    }
}

// Is the request in hand another than the one named?
fn is_other(a: &Model, b: &Book, c: DayCall) -> bool {
    if !a.in_hand(c.party) {
        return false;
    }
    let party = b.round.party(c.party);
    let named = named(&party.day, c);
    let request = party.request;
    request.code != named.code as u32
        || request.entry as u64 != named.entry
        || request.first as u64 != named.first
}

// 14: no day, the place lies past it, or it names another request.
fn is_wrong(a: &Model, b: &Book, c: DayCall) -> bool {
    let day = &b.round.party(c.party).day;
    !day.is_day() || day.stretches() <= c.place as usize / 2 || is_other(a, b, c)
}

// 8 and 9: some stretch's entry is none, driver and start make no keys.
fn number_refusal(b: &Book, c: DayCall) -> Option<u32> {
    let n = b.round.party(c.party).day.stretches() as u64;
    if c.entry == 0 || b.round.size.entries as u64 + 1 < (c.entry as u64).saturating_add(n) {
        return Some(8);
    }
    if c.driver == 0 || 4094 < c.driver || 1047136 < c.start {
        return Some(9);
    }
    None
}

// 13 and what follows it.
fn day_refusal(a: &Model, b: &Book, c: DayCall) -> Option<u32> {
    if b.round.party(c.party).day.bytes().len() % 2 != 0 {
        return Some(13);
    }
    if is_wrong(a, b, c) {
        return Some(14);
    }
    number_refusal(b, c)
}

// The number that refuses a day call.
fn refusal(a: &Model, b: &Book, c: DayCall) -> Option<u32> {
    let p = c.party;
    if PARTIES as u32 <= p {
        return Some(4);
    }
    if !a.begun(p) {
        return Some(5);
    }
    if a.asked(p) {
        return Some(21);
    }
    if p == 0 {
        return Some(6);
    }
    day_refusal(a, b, c)
}

// The put of the request named.
fn named_put(day: &Day, c: DayCall) -> Call {
    let named = named(day, c);
    let entry = (named.entry % 4294967296) as u32;
    let first = (named.first % 4294967296) as u32;
    Call::Put(c.party, Request::new(named.code, entry, first, 0))
}

// The ordinary call that a day call is.
fn ordinary(a: &Model, b: &Book, c: DayCall) -> Call {
    if a.in_hand(c.party) {
        Call::Step {
            party: c.party,
            listed: 0,
        }
    } else {
        named_put(&b.round.party(c.party).day, c)
    }
}

// A request of the day is done: there is more until the last, which says how many stretches there are.
fn done(day: &Day, c: DayCall) -> Told {
    let stretches = day.stretches();
    let next = c.place.wrapping_add(1);
    let said = if (next as usize / 2) < stretches {
        Said::More
    } else {
        Said::Done {
            answer: stretches as u32,
            beside: 0,
        }
    };
    Told { said, place: next }
}

// What a day call says, where the ordinary call said y.
fn renamed(day: &Day, c: DayCall, y: Said) -> Told {
    match y {
        Said::Done { .. } => done(day, c),
        Said::Refused { .. } => Told { said: y, place: 0 },
        _ => Told {
            said: y,
            place: c.place,
        },
    }
}

// Counts a day call that was an ordinary one, of a kind: that one said y, and the day call z.
fn count_day(b: &mut Book, kind: Kind, y: Said, z: Said) {
    if kind == Kind::Put {
        b.counts.day_puts.count();
    } else {
        b.counts.day_steps.count();
    }
    if let Said::Done { .. } = y {
        if let Said::Done { .. } = z {
            b.counts.days.count();
        } else {
            b.counts.day_requests.count();
        }
    }
}

// A day call that is an ordinary one. What a finished request answered is not told, so the log has it from the model.
fn serve(a: &mut Model, b: &mut Book, c: DayCall) -> Told {
    let o = ordinary(a, b, c);
    let y = on_model(a, b, o);
    let z = renamed(&b.round.party(c.party).day, c, y);
    count_day(b, o.kind(), y, z.said);
    after(b, o, y);
    z
}

// What the model says of a day call.
fn day_on_model(a: &mut Model, b: &mut Book, c: DayCall) -> Told {
    match refusal(a, b, c) {
        Some(by) => Told {
            said: Said::Refused { by, beside: 0 },
            place: 0,
        },
        None => serve(a, b, c),
    }
}

// The party keeps the place that was returned.
fn keep(day: &mut Day, told: Told) {
    match told.said {
        Said::Refused { .. } => day.progress = Progress::InDoubt,
        Said::Done { .. } => {
            day.place = told.place;
            day.progress = Progress::InDoubt;
        }
        _ => {
            day.place = told.place;
            day.progress = Progress::UnderWay;
        }
    }
}

// All that is seen after a day call, before which the side was as the old one: the store said x.
pub fn see_day(s: &Side, old: &Side, a: &mut Model, b: &mut Book, c: DayCall, x: Told) {
    let z = day_on_model(a, b, c);
    see_call(s, old, b, Kind::Day, x.said, z.said);
    b.same(What::Place, x.place, z.place);
    let mut day = b.round.party(c.party).day;
    keep(&mut day, x);
    b.round.party_mut(c.party).day = day;
}
