// Requests: a request in hand passes the checks that put makes on its code and arguments, and is at a stage that its code has.
//
// Each function's result EQUALS a definition of specs/Requests. Of the store only the number of its entries is looked at: whether what
// the stage says is true of the tree and the locks is the crate standing's matter. It rests on the crates sessions and marks.
#![tactic(auto)]

ghost use Rattle.std.specs.Prelude.{◌≡◌};
ghost use Rattle.requests.specs.Requests.{value_ok, change_ok, locate_stage, locate_ok, tidy_ok, code_ok, request_ok};

use sessions::{Code, Session, Stage};

// A read or a write in hand.
#[tactic(auto, unfolding(crate::specs::Requests::value_ok))]
fn value_ok(s: Session, m: usize) -> bool
    ensures { result ≡ value_ok s m }
{
    marks::entry_ok(s.entry, m) && s.stage == Stage::Start as u32
}

// An insert or a remove in hand: at its start, at its change, or on its way to first.
#[tactic(auto, unfolding(crate::specs::Requests::change_ok))]
fn change_ok(s: Session, m: usize) -> bool
    ensures { result ≡ change_ok s m }
{
    marks::entry_ok(s.entry, m)
        && marks::key_ok(s.first)
        && s.stage <= Stage::Change as u32
        && (s.stage == Stage::Start as u32
            || s.stage == Stage::Change as u32
            || s.target == s.first)
}

// A locate's stage: it takes, the last key taken being 0 for none or from first on and below second; or it is on its way to an end.
#[tactic(auto, unfolding(crate::specs::Requests::locate_stage))]
fn locate_stage(s: Session) -> bool
    ensures { result ≡ locate_stage s }
{
    if s.stage == Stage::Take as u32 {
        s.last == 0 || (s.first <= s.last && s.last < s.second)
    } else {
        Stage::EnterRoot as u32 <= s.stage
            && s.stage <= Stage::AtNode as u32
            && (s.target == s.first || s.target == s.second)
    }
}

// A locate in hand.
#[tactic(auto, unfolding(crate::specs::Requests::locate_ok))]
fn locate_ok(s: Session) -> bool
    ensures { result ≡ locate_ok s }
{
    marks::key_ok(s.first) && marks::key_ok(s.second) && s.first <= s.second && locate_stage(s)
}

// A tidy in hand: with nothing to choose, or on its way to a choice above first.
#[tactic(auto, unfolding(crate::specs::Requests::tidy_ok))]
fn tidy_ok(s: Session) -> bool
    ensures { result ≡ tidy_ok s }
{
    s.code == Code::Tidy as u32
        && (s.stage == Stage::Start as u32
            || (s.stage <= Stage::AtNode as u32 && s.first < s.target))
}

// A session's request by its code.
#[tactic(auto, unfolding(crate::specs::Requests::code_ok))]
fn code_ok(s: Session, m: usize) -> bool
    ensures { result ≡ code_ok s m }
{
    if s.code == 0 {
        false
    } else if s.code <= Code::Write as u32 {
        value_ok(s, m)
    } else if s.code <= Code::Remove as u32 {
        change_ok(s, m)
    } else {
        s.code == Code::Locate as u32 && locate_ok(s)
    }
}

// Party p's request, if it has one. A session that is not begun has none.
#[tactic(auto, unfolding(crate::specs::Requests::request_ok))]
pub fn request_ok(p: usize, s: Session, m: usize) -> bool
    ensures { result ≡ request_ok p s m }
{
    if s.stage == Stage::Idle as u32 {
        true
    } else if p == 0 {
        tidy_ok(s)
    } else {
        s.begun != 0 && code_ok(s, m)
    }
}
