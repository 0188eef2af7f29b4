// Leaving: what format, begin, put and commit do, on the words of a store and on a session record by value.
//
// Put works out a request's first stage and the key that its descent goes to; commit frees the session's undo records and takes it out of
// every word of holders. Format is endings::fresh_store; begin is endings::begun_session, set in a table that seniority::renumbered has
// numbered. Each function promises that its result, or the store it leaves, EQUALS a definition of specs/Words. The theorems over
// layouts: FreshRow (format), Begun (begin), Asking (put), LeaveRow and FreedRow (the two parts of commit; abort ends with the first),
// Commit. It rests on the crates words, scans, undo_log and endings, and for the theorems on seniority, layout and what lies below it.
#![tactic(auto)]

ghost use Rattle.std.specs.Prelude.{◌≡◌};
ghost use Rattle.leaving.specs.Words.{choice, ChoiceReady, tidy_aim, aim_of, asked, PutReady, leave_all, LeaveReady, commit_words, CommitReady};

use sessions::{Session, Stage};

// The first stage of a request, and the key that its descent goes to.
#[derive(Clone, Copy)]
pub struct Aim {
    pub stage: u32,
    pub target: u32,
}

// ---- put

// Tidy's choice is the descriptor at record n; with none its request starts and ends.
fn choose(store: &[u32], m: usize, n: usize) -> Aim
    requires { ChoiceReady store.now m n }
    ensures { result ≡ choice store.now m n }
{
    if n == 0 {
        return Aim {
            stage: Stage::Start as u32,
            target: 0,
        };
    }
    Aim {
        stage: Stage::EnterRoot as u32,
        target: words::word(store, m, n, 1),
    }
}

// The lowest stored key above first: behind the last one up to it.
fn tidy_aim(store: &[u32], m: usize, r: usize, first: u32) -> Aim
    requires { PutReady store.now m r first }
    ensures { result ≡ tidy_aim store.now m r first }
{
    let start = words::first(store) as usize;
    let last = scans::last_upto(store, m, r, start, first);
    let next = words::word(store, m, last, 0) as usize;
    choose(store, m, next)
}

// The first stage by the request's code: a locate and a tidy begin with a descent, read, write, insert and remove with a step of their
// own, and so would a code that is unknown.
fn first_stage(store: &[u32], m: usize, r: usize, code: u32, first: u32) -> Aim
    requires { PutReady store.now m r first }
    ensures { result ≡ aim_of store.now m r code first }
{
    match code {
        5 => Aim {
            stage: Stage::EnterRoot as u32,
            target: first,
        },
        6 => tidy_aim(store, m, r, first),
        0..=4 | 7..=4294967295 => Aim {
            stage: Stage::Start as u32,
            target: 0,
        },
    }
}

// The session record with the request in hand.
pub fn put_request(
    store: &[u32],
    m: usize,
    r: usize,
    x: Session,
    code: u32,
    entry: u32,
    first: u32,
    second: u32,
) -> Session
    requires { PutReady store.now m r first }
    ensures { result ≡ asked store.now m r x code entry first second }
{
    let aim = first_stage(store, m, r, code, first);
    endings::put_session(x, code, entry, first, second, aim.stage, aim.target)
}

// ---- commit

// Session p leaves every entry and every descriptor.
pub fn leave_all(store: &mut [u32], m: usize, r: usize, p: u32)
    requires { LeaveReady store.old m r p }
    ensures { store.new ≡ leave_all store.old m r p }
{
    let first = words::first(store) as usize;
    endings::leave_entries(store, m, p);
    endings::leave_groups(store, m, r, first, p);
}

// Session p's undo records, from record undo on, become free, and it leaves.
pub fn commit_words(store: &mut [u32], m: usize, r: usize, p: u32, undo: usize)
    requires { CommitReady store.old m r p undo }
    ensures { store.new ≡ commit_words store.old m r p undo }
{
    undo_log::free_chain(store, m, r, undo);
    leave_all(store, m, r, p);
}
