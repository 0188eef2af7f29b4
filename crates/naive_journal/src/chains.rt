// Chains: a chain is written down record by record, and each record that it meets is marked.
use crate::records::{Journal, RECORDS};
use std::mem;

// Room for the numbers of a chain's records. What an earlier chain left in it is written over.
pub type Room = [u32; RECORDS];

// A mark for each record, and one for the number 0, that no record has.
const MARKS: usize = RECORDS + 1;

// Writes down the numbers of the chain from the record with this number on; none where it leaves the file or meets a record twice. No more than 2,048 are
// marked, so a chain is broken or at its end by then.
pub fn chain<'a>(journal: Journal<'_>, start: u32, room: &'a mut Room) -> Option<&'a [u32]> {
    let mut marks = [false; MARKS];
    let mut at = start;
    for length in 0..MARKS {
        if at == 0 {
            return Some(&room[..length]);
        }
        let record = journal.find(at)?;
        let mark = marks.get_mut(at as usize)?;
        if mem::replace(mark, true) {
            return None;
        }
        *room.get_mut(length)? = at;
        at = record.next();
    }
    None
}
