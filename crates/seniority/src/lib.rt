// Seniority: the order of begins, as the numbers of the session table have it.
//
// Of two begun sessions the one with the lower number began first. A number may be any word: ranks come from comparing numbers and no number is an
// index. Each function's result EQUALS a definition of specs/Seniority, over the sessions 1 to 16; specs/Laws says what these mean: the table
// renumbered, record by record; that no two begun sessions share a number; who of a holders word began first. It rests on the crates locks and
// sessions.
#![tactic(auto)]

ghost use Rattle.std.specs.Prelude.{◌≡◌, cond, suc, ◌-◌, ◌≤◌};
ghost use Rattle.locks.specs.Holders.{width};
ghost use Rattle.sessions.specs.Sessions.{parties, is_begun};
ghost use Rattle.seniority.specs.Seniority.{is_earlier, earlier_in, begun_in, ranked_in, renumbered_in, is_numbered, shared_from, distinct_in, eldest_in, best_of};

use sessions::{PARTIES, Session};

// ---- ranks

fn is_begun(s: Session) -> bool
    ensures { result ≡ is_begun s }
{
    s.begun != 0
}

// Begun, with a number below n.
fn is_earlier(s: Session, n: u32) -> bool
    ensures { result ≡ is_earlier n s }
{
    is_begun(s) && s.order < n
}

// How many begun sessions have a number below n.
pub fn earlier(t: [Session; PARTIES], n: u32) -> u32
    ensures { result ≡ earlier_in t n }
{
    t[1..].iter().filter(|s| is_earlier(**s, n)).count() as u32
}

// How many sessions are begun.
pub fn begun_count(t: [Session; PARTIES]) -> u32
    ensures { result ≡ begun_in t }
{
    t[1..].iter().filter(|s| is_begun(**s)).count() as u32
}

// A begun session's record with its rank for its number: 1 and how many have a lower one.
fn ranked(t: [Session; PARTIES], mut s: Session) -> Session
    ensures { result ≡ ranked_in t s }
{
    if is_begun(s) {
        s.order = earlier(t, s.order) + 1;
    }
    s
}

// The table with every begun session ranked.
pub fn renumbered(t: [Session; PARTIES]) -> [Session; PARTIES]
    ensures { result ≡ renumbered_in t }
{
    let mut after = t;
    for p in 1..PARTIES {
        after[p] = ranked(t, t[p]);
    }
    after
}

// ---- no two share a number

// Begun, with number n.
fn is_numbered(s: Session, n: u32) -> bool
    ensures { result ≡ is_numbered n s }
{
    is_begun(s) && s.order == n
}

// Some session from `from` on is begun and has number n.
fn shared(t: [Session; PARTIES], n: u32, from: usize) -> bool
    requires { from ≤ parties }
    ensures { result ≡ shared_from t n from (parties - from) }
{
    t[from..].iter().any(|s| is_numbered(*s, n))
}

// No two begun sessions share a number.
pub fn distinct(t: [Session; PARTIES]) -> bool
    ensures { result ≡ distinct_in t }
{
    (1..PARTIES).all(|p| !(is_begun(t[p]) && shared(t, t[p].order, p + 1)))
}

// ---- who began first

// Of the eldest so far, 0 for none as in best_of, and session p the elder.
fn elder(t: [Session; PARTIES], best: u32, p: u32) -> u32
    requires { (best ≤ width) × (1 ≤ p) × (p ≤ width) }
    ensures { result ≡ best_of t best p }
{
    if best == 0 || t[p as usize].order < t[best as usize].order {
        return p;
    }
    best
}

// Of the sessions of a word of holders the one with the lowest number; 0, which names no session of such a word, for none. They are walked by
// trailing zeros, the lowest first, up to the last session: the loop goes over the bits that are set and counts no index.
pub fn eldest(t: [Session; PARTIES], word: u32) -> u32
    ensures { result ≡ eldest_in t word }
{
    let mut best = 0;
    let mut rest = word;
    while rest != 0 {
        let p = locks::first_session(rest);
        let at = p as usize;
        if at >= PARTIES {
            return best;
        }
        best = elder(t, best, p);
        rest = locks::without_session(rest, p);
    }
    best
}
