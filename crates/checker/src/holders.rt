// Holders: the clauses on long locks.
use super::table::{PARTIES, Table, is_begun, is_holder};

/// "only begun sessions hold"
pub fn are_begun(t: &Table, holders: u32) -> bool {
    holders >> (PARTIES - 1) == 0 && (1..PARTIES).all(|p| !is_holder(holders, p) || is_begun(t, p))
}

/// "no two holders conflict", of an entry: share agrees with share, exclusive with nothing. Whoever holds it exclusive is its only holder.
pub fn agree_on_entry(share: u32, exclusive: u32) -> bool {
    exclusive == 0 || (share | exclusive).count_ones() == 1
}

/// The same of a group: locate agrees with locate and update with update (document 02, M-104), but not with each other. Where it is held in both
/// modes, one session is its only holder.
pub fn agree_on_group(locate: u32, update: u32) -> bool {
    locate == 0 || update == 0 || (locate | update).count_ones() == 1
}
