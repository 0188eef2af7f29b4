// Running: a run, which is steps of one party until one is not answered more, on a sound store and on the session table by value.
//
// The caller has tested that store and table are sound. A run is a list of ordinary steps, all answered more but the last, and each keeps what the crate
// promises says of a step (promises/specs/Runs). Only the first is tested for a refusal: a step that is answered more leaves store and table sound and its
// party with a request in hand (specs/Making). The loop has only its party's record in hand: whatever table has that record, the step is that table's
// (specs/Seats). Whom a wait names is asked of the table, once, after the loop. A scan goes on from the descriptor that its last step took (specs/Scans); the
// place is handed on inside a run and stored nowhere. It rests on refusals for the numbers and the party's record, on stepping and taking for the steps, on
// groups for the descriptor that is next.
#![tactic(auto)]

ghost use Rattle.std.specs.Prelude.{◌≡◌};
ghost use Rattle.words.specs.Store.{HasRecord};
ghost use Rattle.outcomes.specs.Said.{said};
ghost use Rattle.meaning.specs.Sound.{Sound};
ghost use Rattle.taking.specs.Place.{next_taken};
ghost use Rattle.taking.specs.Taking.{CanFind};
ghost use Rattle.promises.specs.Runs.{Runs};
ghost use Rattle.running.specs.Answers.{is_more, is_ok_of};
ghost use Rattle.running.specs.Making.{Limit};
ghost use Rattle.running.specs.Seats.{Seated, SeatRuns};
ghost use Rattle.running.specs.Scans.{Hint, place_after, Scannable, SatServes};

use outcomes::{Answer, Ran};
use sessions::{PARTIES, Session, Stage};

// The most steps of one run; promises/specs/Runs has it as most_steps.
pub const MOST_STEPS: u32 = 16383;

// ---- which answer it is

pub fn is_more(a: Answer) -> bool
    ensures { result ≡ is_more a }
{
    matches!(a, Answer::More)
}

pub fn is_ok(a: Answer) -> bool
    ensures { result ≡ is_ok_of a }
{
    matches!(a, Answer::Ok)
}

// ---- one step of a party whose record is x

// What a step leaves of its party's record, its answer, and the record of the descriptor that the next step of a scan takes, 0 where that is not known: no
// Option, since the definitions that the contracts name, place_after and Hint, have the 0.
#[derive(Clone, Copy)]
struct Sat {
    session: Session,
    answer: Answer,
    next: usize,
}

// Where a scan stands: where the step before said, or where the walk from first leads.
fn place_of(store: &[u32], m: usize, r: usize, x: Session, from: usize) -> usize
    requires { CanFind store.now m r x × Hint store.now m r x from }
    ensures { result ≡ next_taken store.now m r x }
{
    if from == 0 {
        return taking::next_taken(store, m, r, x);
    }
    from
}

// Where it stands after a step that took d: behind d, if the scan goes on.
fn place_after(store: &[u32], m: usize, d: usize, a: Answer) -> usize
    requires { HasRecord store.now m d }
    ensures { result ≡ place_after store.now m d a }
{
    if !is_more(a) {
        return 0;
    }
    groups::descriptor_next(store, m, d) as usize
}

// A step of a scan.
fn scan_step(
    store: &mut [u32],
    list: &mut [u32],
    m: usize,
    r: usize,
    p: u32,
    x: Session,
    from: usize,
) -> Sat
    requires { Scannable store.old m r p x from }
    ensures { SatServes m r p x store.old list.old result.answer list.new store.new result.session result.next }
{
    let d = place_of(store, m, r, x, from);
    let z = taking::take_at(store, list, m, r, p, x, d);
    Sat {
        session: z.session,
        answer: z.answer,
        next: place_after(store, m, d, z.answer),
    }
}

// A step over the party's record alone: whatever table has it, the step is that table's.
fn seat_step(
    store: &mut [u32],
    list: &mut [u32],
    m: usize,
    r: usize,
    p: u32,
    x: Session,
    from: usize,
) -> Sat
    requires { Seated store.old m r p x × Hint store.old m r x from }
    ensures { SatServes m r p x store.old list.old result.answer list.new store.new result.session result.next }
{
    if x.stage == Stage::Take as u32 {
        return scan_step(store, list, m, r, p, x, from);
    }
    let z = stepping::early_step(store, m, r, p, x);
    Sat {
        session: z.session,
        answer: z.answer,
        next: 0,
    }
}

// ---- a run

// The most steps that are made: the bound, but at least one.
fn limit_of(bound: u32) -> u32
    ensures { Limit bound result }
{
    if bound == 0 {
        return 1;
    }
    if bound < MOST_STEPS {
        return bound;
    }
    MOST_STEPS
}

// What the last step of a run leaves, and how many steps there were.
#[derive(Clone, Copy)]
struct Went {
    sat: Sat,
    steps: u32,
}

fn run_seat(
    store: &mut [u32],
    list: &mut [u32],
    m: usize,
    r: usize,
    p: u32,
    x: Session,
    bound: u32,
) -> Went
    requires { Seated store.old m r p x }
    ensures { SeatRuns m r p bound x store.old list.old result.sat.answer result.steps list.new store.new result.sat.session }
{
    let limit = limit_of(bound);
    let mut sat = Sat {
        session: x,
        answer: Answer::More,
        next: 0,
    };
    for steps in 0..limit {
        if !is_more(sat.answer) {
            return Went { sat, steps };
        }
        sat = seat_step(store, list, m, r, p, sat.session, sat.next);
    }
    Went { sat, steps: limit }
}

// Steps of party p until one is not answered more: at least one, at most bound, and never more than MOST_STEPS.
pub fn run(store: &mut [u32], list: &mut [u32], t: [Session; PARTIES], p: u32, bound: u32) -> Ran
    requires { Sound store.old t }
    ensures { Runs p bound store.old t list.old (said result.answer) result.steps list.new store.new result.table }
{
    if let Err(refusal) = refusals::check_step(t, p) {
        return Ran::refused(t, refusal, 1);
    }
    let m = words::entries(store) as usize;
    let r = words::records(store) as usize;
    let x = refusals::seat(t, p);
    let went = run_seat(store, list, m, r, p, x, bound);
    let sat = went.sat;
    let answer = sat.answer;
    let y = sat.session;
    let after = refusals::settle(t, p, y);
    let named = stepping::name_wait(store, m, r, after, p, y, answer);
    Ran {
        table: after,
        answer: named,
        steps: went.steps,
    }
}
