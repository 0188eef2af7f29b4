// Batches: a request whole, one ask of any kind, and a list of asks, once store and table are known to be sound.
//
// A request is a put and, if that is accepted, a run. A batch makes one ask after another until one is answered wait, is refused or used up its bound, and
// packs each answer into its place. By its contract each is a list of ordinary calls, each related by the ordinary contract (specs/Batches); the tests of soundness
// between them are not made, since each call is proved to leave store and table sound. It rests on asking for the asks as words, on serving for the calls, on
// running for runs, on packing for the answers.
#![tactic(auto)]

ghost use Rattle.std.specs.Prelude.{◌≡◌, true, ◌↔◌, [], ◌+◌, ◌/◌, ◌≤◌, length, take, drop};
ghost use Rattle.sessions.specs.Sessions.{session_at};
ghost use Rattle.outcomes.specs.Said.{said};
ghost use Rattle.meaning.specs.Sound.{Sound};
ghost use Rattle.promises.specs.Runs.{Requests};
ghost use Rattle.batches.specs.Batches.{Asks, code_of, pairs_of, used, goes_on, is_step, Fits, MadeAll};
ghost use Rattle.batches.specs.Making.{Turned, Ready, behind};

use asking::Asking;
use outcomes::{Answer, Made, Ran, Refusal, Served};
use sessions::{PARTIES, Session};

// The most asks of a batch, and the words of an ask.
const MOST: usize = 65535;

const WORDS: usize = 7;

// ---- a request

pub fn request(
    store: &mut [u32],
    list: &mut [u32],
    t: [Session; PARTIES],
    p: u32,
    code: u32,
    entry: u32,
    first: u32,
    second: u32,
    bound: u32,
) -> Ran
    requires { Sound store.old t }
    ensures { Requests p code entry first second bound store.old t list.old (said result.answer) result.steps list.new store.new result.table }
{
    let served = serving::put(store, t, p, code, entry, first, second);
    if running::is_ok(served.answer) {
        return running::run(store, list, served.table, p, bound);
    }
    counted(served, 0)
}

// ---- one ask

// What a call leaves, with how many steps it was.
fn counted(served: Served, steps: u32) -> Ran
    ensures { result ≡ record { table = served.table; answer = served.answer; steps = steps } }
{
    let table = served.table;
    Ran {
        table,
        answer: served.answer,
        steps,
    }
}

// The answer to what is no ask: nothing is made.
fn no_ask(t: [Session; PARTIES]) -> Ran
    ensures { result ≡ record { table = t; answer = Answer.Refused 101 0; steps = 0 } }
{
    Ran::refused(t, Refusal::NoAsk, 0)
}

fn ask(store: &mut [u32], list: &mut [u32], t: [Session; PARTIES], k: Asking) -> Ran
    requires { Sound store.old t }
    ensures { Asks k store.old t list.old (said result.answer) result.steps list.new store.new result.table }
{
    match k {
        Asking::Begin(p) => counted(serving::begin(store, t, p), 0),
        Asking::Put(p, code, entry, first, second) => {
            counted(serving::put(store, t, p, code, entry, first, second), 0)
        }
        Asking::Step(p) => counted(serving::step(store, list, t, p), 1),
        Asking::Commit(p) => counted(serving::commit(store, t, p), 0),
        Asking::Abort(p) => counted(serving::abort(store, t, p), 0),
        Asking::Run(p, bound) => running::run(store, list, t, p, bound),
        Asking::Request(p, code, entry, first, second, bound) => {
            request(store, list, t, p, code, entry, first, second, bound)
        }
        Asking::Ask(p) => counted(serving::ask(store, t, p), 0),
        Asking::Other => no_ask(t),
    }
}

// An ask that is lent the list from a place on.
fn ask_from(
    store: &mut [u32],
    list: &mut [u32],
    from: usize,
    t: [Session; PARTIES],
    k: Asking,
) -> Ran
    requires { Sound store.old t × (from ≤ length list.old) }
    ensures { Asks k store.old t (drop from list.old) (said result.answer) result.steps (drop from list.new) store.new result.table × (take from list.new ≡ take from list.old) }
{
    ask(store, &mut list[from..], t, k)
}

// ---- what an ask leaves for the next one

// The code of the request that an ask steps.
fn code_in(k: Asking, t: [Session; PARTIES]) -> u32
    ensures { result ≡ code_of k t }
{
    match k {
        Asking::Step(p) | Asking::Run(p, _) => party_code(t, p),
        Asking::Request(_, code, _, _, _, _) => code,
        _ => 0,
    }
}

fn party_code(t: [Session; PARTIES], p: u32) -> u32
    ensures { result ≡ (session_at t p).code }
{
    refusals::seat(t, p).code
}

// Twice so many words as a locate found pairs; nothing else writes the list.
fn pair_words(code: u32, n: u32) -> usize
    ensures { result ≡ pairs_of code n }
{
    if code == 5 {
        return 2 * (n as usize);
    }
    0
}

// How many words of the list an ask has written.
fn words_used(k: Asking, t: [Session; PARTIES], a: Answer) -> usize
    ensures { result ≡ used (code_of k t) (said a) }
{
    match a {
        Answer::Done(n) => pair_words(code_in(k, t), n),
        _ => 0,
    }
}

// The place so many words behind a place of the list, or its end.
fn place_behind(from: usize, len: usize, n: usize) -> usize
    requires { from ≤ len }
    ensures { result ≡ behind from len n }
{
    if len - from < n {
        return len;
    }
    from + n
}

fn is_single(k: Asking) -> bool
    ensures { result ≡ is_step k }
{
    matches!(k, Asking::Step(_))
}

// Whether the batch goes on after an ask with this answer. More tells of a step that another is due, of a run that its bound is used up.
fn may_go_on(k: Asking, a: Answer) -> bool
    ensures { result ≡ goes_on k (said a) }
{
    match a {
        Answer::Ok | Answer::Done(_) | Answer::Tidied(_, _) => true,
        Answer::More => is_single(k),
        Answer::Wait(_) | Answer::Refused(_, _) => false,
    }
}

// ---- a batch

// The table, the place in the list, and whether the batch goes on. No Option: the table is handed back where it ends, too.
#[derive(Clone, Copy)]
struct Place {
    table: [Session; PARTIES],
    from: usize,
    on: bool,
}

// Ask i is made, and its answer packed into its place.
fn turn(
    store: &mut [u32],
    list: &mut [u32],
    asks: &[u32],
    answers: &mut [u64],
    i: usize,
    at: Place,
) -> Place
    requires { Ready store.old list.old asks.now answers.old at.table at.from i }
    ensures { Turned asks.now i at.from store.old at.table list.old answers.old (i + 1) result.from result.on answers.new list.new store.new result.table }
{
    let from = at.from;
    let t = at.table;
    let k = asking::asking_at(asks, i);
    let ran = ask_from(store, list, from, t, k);
    let answer = ran.answer;
    let made = Made {
        answer,
        steps: ran.steps,
    };
    answers[i] = packing::pack_made(made);
    let n = words_used(k, t, answer);
    let after = ran.table;
    Place {
        table: after,
        from: place_behind(from, list.len(), n),
        on: may_go_on(k, answer),
    }
}

// How many asks so many words are. A rest of fewer words than an ask has counts as one.
fn count_of(len: usize) -> usize
    requires { len ≤ 458745 }
    ensures { result ≡ (len + 6) / 7 }
{
    (len + 6) / WORDS
}

// Whether there is an answer's place for each ask, and no ask too many.
pub fn fits(len: usize, places: usize) -> bool
    ensures { (result ≡ true) ↔ Fits len places }
{
    if WORDS * MOST < len {
        return false;
    }
    count_of(len) <= places
}

fn ended(table: [Session; PARTIES], made: usize) -> Served
    requires { made ≤ 65535 }
    ensures { result ≡ record { table = table; answer = Answer.Done made } }
{
    Served {
        table,
        answer: Answer::Done(made as u32),
    }
}

// The asks, one after another; the answer is how many were made.
pub fn batch(
    store: &mut [u32],
    list: &mut [u32],
    t: [Session; PARTIES],
    asks: &[u32],
    answers: &mut [u64],
) -> Served
    requires { Sound store.old t × Fits (length asks.now) (length answers.old) }
    ensures { MadeAll asks.now store.old t list.old answers.old (said result.answer) answers.new list.new store.new result.table }
{
    let mut at = Place {
        table: t,
        from: 0,
        on: true,
    };
    let count = count_of(asks.len());
    for i in 0..count {
        if !at.on {
            return ended(at.table, i);
        }
        at = turn(store, list, asks, answers, i, at);
    }
    ended(at.table, count)
}
