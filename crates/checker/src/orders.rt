// Orders: the clause on the order of begins.
use super::table::{Table, is_begun};

/// "in a sound table no two begun sessions share a number"
pub fn are_apart(t: &Table) -> bool {
    for (p, x) in t.iter().enumerate() {
        for (q, y) in t.iter().enumerate() {
            if p != q && is_begun(t, p) && is_begun(t, q) && x.order == y.order {
                return false;
            }
        }
    }
    true
}
