// Asks: the clause on asked sessions.
use super::table::{Stage, Table, is_begun};

/// "in a sound table only a begun session with no request in hand is asked"
pub fn are_asked_idle(t: &Table) -> bool {
    t.iter().enumerate().all(|(p, x)| {
        x.asked == 0 || is_begun(t, p) && Stage::from(x.stage) == Stage::None
    })
}
