// Serve: a call made on the store; every second one that a batch can have as a batch of one, a step as a run of one, with the answer read off its number.
ghost use Rattle.std.specs.Prelude.{ℕ, ◌≡◌, ◌≤◌, min};
ghost use Rattle.schedules.specs.declared.requests.Request.{Request};
ghost use Rattle.books.specs.declared.call.Call.TheVariants.{Put};

use books::book::{Book, LIST};
use books::call::{Call, Said};
use books::seats::{set_table, table};
use outcomes::{Answer, Served};
use schedules::requests::Request;
use schedules::side::Side;
use sessions::{PARTIES, Session};
use std::mem;

// What a call leaves of the table, and its answer.
#[derive(Clone, Copy)]
struct Reply {
    table: [Session; PARTIES],
    said: Said,
}

// Both types are of other crates, so this is a function and no From.
fn said(answer: Answer) -> Said {
    match answer {
        Answer::Ok => Said::Ok,
        Answer::More => Said::More,
        Answer::Wait(q) => Said::Wait(q),
        Answer::Done(answer) => Said::Done { answer, beside: 0 },
        Answer::Tidied(answer, beside) => Said::Done { answer, beside },
        Answer::Refused(by, beside) => Said::Refused { by, beside },
    }
}

// The call on a store and a list. A day call is made elsewhere.
fn served(store: &mut [u32], list: &mut [u32], t: [Session; PARTIES], c: Call) -> Option<Served> {
    Some(match c {
        Call::Format { entries, .. } => calls::format(store, t, entries),
        Call::Begin(p) => calls::begin(store, t, p),
        Call::Put(p, r) => calls::put(store, t, p, r.code, r.entry, r.first, r.second),
        Call::Step { party, .. } => calls::step(store, list, t, party),
        Call::Commit(p) => calls::commit(store, t, p),
        Call::Abort(p) => calls::abort(store, t, p),
        Call::Ask(p) => calls::ask(store, t, p),
        Call::Recover => calls::recover(store, t),
        Call::Day(_) => return None,
    })
}

fn alone(store: &mut [u32], list: &mut [u32], t: [Session; PARTIES], c: Call) -> Reply {
    match served(store, list, t, c) {
        Some(x) => {
            let table = x.table;
            Reply {
                table,
                said: said(x.answer),
            }
        }
        None => Reply {
            table: t,
            said: Said::UNSERVED,
        },
    }
}

// The words of an ask of a batch.
type AskWords = [u32; 7];

// The ask of a batch of this kind, with the words of a request.
fn ask_of(kind: u32, party: u32, r: Request) -> AskWords {
    [kind, party, r.code, r.entry, r.first, r.second, 1]
}

// The ask of a batch that the call is, if it can be one, with the spare words where it has none of its own.
fn ask(c: Call, spare: Request) -> Option<AskWords> {
    match c {
        Call::Begin(p) => Some(ask_of(1, p, spare)),
        Call::Put(p, r) => Some(ask_of(2, p, r)),
        Call::Commit(p) => Some(ask_of(4, p, spare)),
        Call::Abort(p) => Some(ask_of(5, p, spare)),
        Call::Step { party, listed } => {
            let r = Request {
                first: listed,
                ..spare
            };
            Some(ask_of(6, party, r))
        }
        Call::Ask(p) => Some(ask_of(8, p, spare)),
        Call::Format { .. } | Call::Day(_) | Call::Recover => None,
    }
}

// An answer's number: its word, and the numbers beside it.
fn read(number: u64) -> Said {
    let value = (number % 4294967296) as u32;
    let beside = (number / 4294967296 % 256) as u32;
    match number / 1099511627776 % 256 {
        0 => Said::Ok,
        1 => Said::More,
        2 => Said::Wait(value),
        3 => Said::Done {
            answer: value,
            beside,
        },
        _ => Said::Refused {
            by: beside,
            beside: value,
        },
    }
}

fn read_batch(own: Answer, number: u64) -> Said {
    match own {
        Answer::Refused(by, beside) => Said::Refused { by, beside },
        _ => read(number),
    }
}

fn in_batch(store: &mut [u32], list: &mut [u32], t: [Session; PARTIES], ask: AskWords) -> Reply {
    let mut answers = [0u64; 1];
    let Served { table, answer } = calls::batch(store, list, t, &ask, &mut answers);
    Reply {
        table,
        said: read_batch(answer, answers[0]),
    }
}

// How many words of the list the call is lent: as many as it names, and of a call that writes no list as many as its first word says, or its spare one.
fn listed(c: Call, spare: Request) -> usize
    ensures room { result ≤ 1024 }
    ensures put { (p : ℕ) (r : Request) → c ≡ Put p r → result ≡ min r.first 1024 }
{
    let first = match c {
        Call::Step { listed, .. } => listed,
        Call::Put(_, r) => r.first,
        _ => spare.first,
    };
    (first as usize).min(LIST)
}

// The call on the store of a side, lent so many words of it, if there are as many.
fn on_words(s: &mut Side, b: &mut Book, words: u32, c: Call) -> Reply {
    let t = table(s);
    let Some(store) = s.store.get_mut(..words as usize) else {
        return Reply {
            table: t,
            said: Said::UNSERVED,
        };
    };
    let is_batch = b.round.call % 2 == 1;
    let spare = mem::take(&mut b.round.spare);
    let asked = ask(c, spare);
    let list_end = listed(c, spare);
    let list = &mut b.round.store_list[..list_end];
    match asked {
        Some(ask) if is_batch => in_batch(store, list, t, ask),
        _ => alone(store, list, t, c),
    }
}

// The call on the store, whose words are so many.
pub fn on_store(s: &mut Side, b: &mut Book, words: u32, c: Call) -> Said {
    let x = on_words(s, b, words, c);
    set_table(s, x.table);
    x.said
}
