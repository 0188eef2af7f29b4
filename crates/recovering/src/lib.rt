// Recovering: what recover does to the words of a store and to its session table, whole.
//
// The housekeeper's request ends, and then each begun session that is not asked aborts, one after another. It promises that words and table EQUAL
// aborting's definition (RecoverRow.recover_words), from words that stand for a sound state. It rests on aborting and endings.
#![tactic(auto)]

ghost use Rattle.std.specs.Prelude.{◌≡◌, true};
ghost use Rattle.aborting.specs.Words.{AbortReady};
ghost use Rattle.aborting.specs.RecoverRow.{lapsing, kept, recover_words};
ghost use Rattle.recovering.specs.Recovering.{lapsed_words, lapsed_session, lapsed_all, RecoverReady};

use sessions::{PARTIES, Session};

// Begun and not asked.
fn lapses(x: Session) -> bool
    ensures { result ≡ lapsing x }
{
    x.begun != 0 && x.asked == 0
}

// Session p, whose record is x, aborts if it is begun and not asked.
fn lapse_words(store: &mut [u32], m: usize, r: usize, p: u32, x: Session)
    requires { lapsing x ≡ true → AbortReady store.old m r p x }
    ensures { store.new ≡ lapsed_words store.old m r p x }
{
    if lapses(x) { // the asked are spared
        aborting::abort_words(store, m, r, p, x);
    }
}

// Its record then.
fn lapse_session(x: Session) -> Session
    ensures { result ≡ lapsed_session x }
{
    if lapses(x) {
        endings::ended_session(x)
    } else {
        x
    }
}

// Each session in turn.
fn lapse_all(store: &mut [u32], m: usize, r: usize, mut t: [Session; PARTIES]) -> [Session; PARTIES]
    requires { RecoverReady store.old t m r }
    ensures { kept store.new result ≡ lapsed_all m r (kept store.old t) }
{
    for p in 1..PARTIES {
        let x = t[p];
        lapse_words(store, m, r, p as u32, x);
        t[p] = lapse_session(x);
    }
    t
}

// The whole. The words stand for a sound state with m entries and r records.
pub fn recover_words(
    store: &mut [u32],
    m: usize,
    r: usize,
    mut t: [Session; PARTIES],
) -> [Session; PARTIES]
    requires { RecoverReady store.old t m r }
    ensures { kept store.new result ≡ recover_words m r (kept store.old t) }
{
    let keeper = t[0];
    let idle = endings::idle_session(keeper);
    aborting::end_hand(store, m, keeper);
    t[0] = idle;
    lapse_all(store, m, r, t)
}
