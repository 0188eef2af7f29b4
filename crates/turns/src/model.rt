// Model: a call made on the second model.
use books::book::{Book, LIST};
use books::call::{Call, Said};
use naive::Model;
use schedules::requests::Request;

fn put(a: &mut Model, p: u32, request: Request) -> Said {
    let Request {
        code,
        entry,
        first,
        second,
    } = request;
    Said::from(a.put(p, code, entry, first, second))
}

// A step that is lent so many words of the model's list.
fn step(a: &mut Model, b: &mut Book, p: u32, listed: u32) -> Said {
    let end = (listed as usize).min(LIST);
    Said::from(a.step(&mut b.round.model_list[..end], p))
}

// The call on the model. It has no day calls: each is made there as the ordinary call that it is.
pub fn on_model(a: &mut Model, b: &mut Book, c: Call) -> Said {
    match c {
        Call::Format { entries, words } => Said::from(a.format(entries, words)),
        Call::Begin(p) => Said::from(a.begin(p)),
        Call::Put(p, request) => put(a, p, request),
        Call::Step { party, listed } => step(a, b, party, listed),
        Call::Commit(p) => Said::from(a.commit(p)),
        Call::Abort(p) => Said::from(a.abort(p)),
        Call::Ask(p) => Said::from(a.ask(p)),
        Call::Recover => {
            a.recover();
            Said::Ok
        }
        Call::Day(_) => Said::UNSERVED,
    }
}
