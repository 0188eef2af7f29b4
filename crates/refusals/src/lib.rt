// Refusals: what each call is refused for, as the session table and the arguments tell it.
//
// Refusals 1 and 2, of the words of store and table, are asked before; 11 and 12 are a step's. Each function promises that its result EQUALS a
// definition of specs/: seat, is_begun and has_request what the table says, settle the table with one record changed; a check that the number of its
// refusal, 0 for none, is the first number of a list whose test is true (Refusing.first_of), the lists being document 01's order. Refusing proves that
// these lists are the machine's, on sound words; Coded that the checks of a request are those of its code. It rests on the crates sessions, outcomes for
// the refusals, endings for an idle record, words for how many records a store has, meaning and machine.
#![tactic(auto, unfolding(crate::specs::Refusing::first_of, crate::specs::Refusing::is_begun_in, crate::specs::Refusing::asked_in, crate::specs::Refusing::hand_in))]

ghost use Rattle.std.specs.Prelude.{◌≡◌, ◌||◌, ◌≤◌, eqb, ltb, set};
ghost use Rattle.sessions.specs.Sessions.{session_at};
ghost use Rattle.outcomes.specs.Refused.{refused_by};
ghost use Rattle.machine.specs.Holders.{width};
ghost use Rattle.machine.specs.Calls.{infinite, no_party, no_session, format_checks};
ghost use Rattle.refusals.specs.Refusing.{first_of, is_begun_in, asked_in, hand_in, begin_list, step_list, commit_list, abort_list, ask_list, party_list, request_list, put_list};
ghost use Rattle.refusals.specs.Coded.{value_list, change_list, locate_list, tidy_list};

use outcomes::Refusal;
use sessions::{PARTIES, Session};

// ---- what the table says

// Party p's record; an idle one for a number that is no party's.
pub fn seat(t: [Session; PARTIES], p: u32) -> Session
    ensures { result ≡ session_at t p }
{
    let at = p as usize;
    if at < PARTIES {
        return t[at];
    }
    endings::fresh_session()
}

// The table with record x for party p.
pub fn settle(mut t: [Session; PARTIES], p: u32, x: Session) -> [Session; PARTIES]
    requires { p ≤ width }
    ensures { result ≡ set t p x }
{
    let at = p as usize;
    t[at] = x;
    t
}

// The housekeeper always counts as begun.
pub fn is_begun(t: [Session; PARTIES], p: u32) -> bool
    ensures { result ≡ is_begun_in t p }
{
    p == 0 || seat(t, p).begun != 0
}

// A request in hand.
pub fn has_request(t: [Session; PARTIES], p: u32) -> bool
    ensures { result ≡ hand_in t p }
{
    seat(t, p).stage != 0
}

// The session is asked.
pub fn is_asked(t: [Session; PARTIES], p: u32) -> bool
    ensures { result ≡ asked_in t p }
{
    seat(t, p).asked != 0
}

// ---- tests of the arguments

fn not_party(p: u32) -> bool
    ensures { result ≡ no_party p }
{
    let at = p as usize;
    PARTIES <= at
}

fn not_session(p: u32) -> bool
    ensures { result ≡ no_session p }
{
    p == 0 || not_party(p)
}

// No entry of m.
fn not_entry(m: u32, e: u32) -> bool
    ensures { result ≡ (eqb e 0 || ltb m e) }
{
    e == 0 || m < e
}

// One of the two infinities.
fn is_infinite(k: u32) -> bool
    ensures { result ≡ infinite k }
{
    k == 0 || k == u32::MAX
}

// ---- the calls but put

pub fn check_begin(t: [Session; PARTIES], p: u32) -> Result<(), Refusal>
    ensures { refused_by result ≡ first_of (begin_list t p) }
{
    let unknown = not_session(p);
    let already = is_begun(t, p);
    if unknown {
        return Err(Refusal::Party);
    }
    if already {
        return Err(Refusal::Begun);
    }
    Ok(())
}

pub fn check_step(t: [Session; PARTIES], p: u32) -> Result<(), Refusal>
    ensures { refused_by result ≡ first_of (step_list t p) }
{
    if not_party(p) {
        return Err(Refusal::Party);
    }
    if !is_begun(t, p) {
        return Err(Refusal::Begun);
    }
    if !has_request(t, p) {
        return Err(Refusal::Hand);
    }
    Ok(())
}

pub fn check_commit(t: [Session; PARTIES], p: u32) -> Result<(), Refusal>
    ensures { refused_by result ≡ first_of (commit_list t p) }
{
    check_abort(t, p)?;
    if has_request(t, p) {
        return Err(Refusal::Hand);
    }
    Ok(())
}

pub fn check_abort(t: [Session; PARTIES], p: u32) -> Result<(), Refusal>
    ensures { refused_by result ≡ first_of (abort_list t p) }
{
    if not_session(p) {
        return Err(Refusal::Party);
    }
    if !is_begun(t, p) {
        return Err(Refusal::Begun);
    }
    Ok(())
}

pub fn check_ask(t: [Session; PARTIES], p: u32) -> Result<(), Refusal>
    ensures { refused_by result ≡ first_of (ask_list t p) }
{
    check_abort(t, p)?;
    if is_asked(t, p) {
        return Err(Refusal::Asked);
    }
    if has_request(t, p) {
        return Err(Refusal::Hand);
    }
    Ok(())
}

// Format, of a store of so many words. No number of entries above 1024 is asked for its records.
pub fn check_format(m: u32, words: usize) -> Result<(), Refusal>
    ensures { refused_by result ≡ first_of (format_checks m words) }
{
    if m == 0 || 1024 < m || words::records_for(m as usize, words) < 8 {
        return Err(Refusal::Sizes);
    }
    Ok(())
}

// ---- put

// A read or a write.
fn check_value(m: u32, p: u32, e: u32) -> Result<(), Refusal>
    ensures { refused_by result ≡ first_of (value_list m p e) }
{
    if p == 0 {
        return Err(Refusal::Code);
    }
    if not_entry(m, e) {
        return Err(Refusal::Entry);
    }
    Ok(())
}

// An insert or a remove.
fn check_change(m: u32, p: u32, e: u32, f: u32) -> Result<(), Refusal>
    ensures { refused_by result ≡ first_of (change_list m p e f) }
{
    check_value(m, p, e)?;
    if is_infinite(f) {
        return Err(Refusal::Key);
    }
    Ok(())
}

// A locate.
fn check_locate(p: u32, f: u32, g: u32) -> Result<(), Refusal>
    ensures { refused_by result ≡ first_of (locate_list p f g) }
{
    if p == 0 {
        return Err(Refusal::Code);
    }
    if is_infinite(f) || is_infinite(g) {
        return Err(Refusal::Key);
    }
    if g < f {
        return Err(Refusal::Range);
    }
    Ok(())
}

// A tidy: the housekeeper's only.
fn check_tidy(p: u32) -> Result<(), Refusal>
    ensures { refused_by result ≡ first_of (tidy_list p) }
{
    if p != 0 {
        return Err(Refusal::Code);
    }
    Ok(())
}

// A request of m entries by its code.
pub fn check_request(m: u32, p: u32, c: u32, e: u32, f: u32, g: u32) -> Result<(), Refusal>
    ensures { refused_by result ≡ first_of (request_list m p c e f g) }
{
    match c {
        1 | 2 => check_value(m, p, e),
        3 | 4 => check_change(m, p, e, f),
        5 => check_locate(p, f, g),
        6 => check_tidy(p),
        0 | 7..=4294967295 => Err(Refusal::Code),
    }
}

// What refuses a request before it is looked at: 4, 5 or 21.
pub fn check_party(t: [Session; PARTIES], p: u32) -> Result<(), Refusal>
    ensures { refused_by result ≡ first_of (party_list t p) }
{
    let out = not_party(p);
    let begun = is_begun(t, p);
    let asked = is_asked(t, p);
    if out {
        return Err(Refusal::Party);
    }
    if !begun {
        return Err(Refusal::Begun);
    }
    if asked {
        return Err(Refusal::Asked);
    }
    Ok(())
}

pub fn check_put(
    m: u32,
    t: [Session; PARTIES],
    p: u32,
    c: u32,
    e: u32,
    f: u32,
    g: u32,
) -> Result<(), Refusal>
    ensures { refused_by result ≡ first_of (put_list m t p c e f g) }
{
    check_party(t, p)?;
    if has_request(t, p) {
        return Err(Refusal::Hand);
    }
    check_request(m, p, c, e, f, g)
}
