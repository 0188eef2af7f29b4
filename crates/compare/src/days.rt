// Days: a day call made on the store, with the bytes that its party keeps.
use books::book::Book;
use books::call::{DayCall, Said, Told};
use books::seats::{set_table, table};
use outcomes::{DayAnswer, DayServed};
use schedules::side::Side;
use sessions::{PARTIES, Session};

// Both types are of other crates, so this is a function and no From.
fn told(answer: DayAnswer) -> Told {
    match answer {
        DayAnswer::Ok(place) => Told {
            said: Said::Ok,
            place,
        },
        DayAnswer::More(place) => Told {
            said: Said::More,
            place,
        },
        DayAnswer::Wait(q, place) => Told {
            said: Said::Wait(q),
            place,
        },
        DayAnswer::Done(answer, place) => Told {
            said: Said::Done { answer, beside: 0 },
            place,
        },
        DayAnswer::Refused(by, beside) => Told {
            said: Said::Refused { by, beside },
            place: 0,
        },
    }
}

fn served(store: &mut [u32], t: [Session; PARTIES], c: DayCall, bytes: &[u8]) -> DayServed {
    calls::day(
        store, t, c.party, bytes, c.driver, c.start, c.entry, c.place,
    )
}

// The day call on the store.
pub fn day_on_store(s: &mut Side, b: &Book, c: DayCall) -> Told {
    let t = table(s);
    let bytes = b.round.party(c.party).day.bytes();
    let Some(store) = s.store.get_mut(..b.round.size.words as usize) else {
        return Told {
            said: Said::UNSERVED,
            place: 0,
        };
    };
    let x = served(store, t, c, bytes);
    set_table(s, x.table);
    told(x.answer)
}
