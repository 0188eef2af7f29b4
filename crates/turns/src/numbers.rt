// Numbers: other numbers in the order of begins, and other marks of asked sessions, as a table that is lent may have them. The numbers of the begun sessions
// stay in order.
use books::book::Book;
use naive::Model;
use schedules::side::{PARTIES, Side};

// A number for the session that began as number k of n: from 0 on, up to the highest word, or with gaps.
fn spread_number(how: u32, k: u32, n: u32) -> u32 {
    match how {
        0 => k.wrapping_sub(1),
        1 => k.wrapping_sub(n.wrapping_add(1)),
        2 => (k % 32) << 26,
        _ => 1000 * (k % 32),
    }
}

// A number for party p; any for one that is not begun.
fn other_number(a: &Model, b: &mut Book, p: u32, how: u32) -> u32 {
    match a.place_in_line(p) {
        None => b.random.word(),
        Some(k) => spread_number(how, k, a.begun_count()),
    }
}

// The mark of a session that is asked becomes any word but 0.
fn spread_mark(s: &mut Side, b: &mut Book, p: u32) {
    let x = b.random.word();
    if s.is_asked(p) && x != 0 {
        s.set_mark(p, x);
    }
}

// Gives all parties other numbers, the same in the store's table and in the model, and those that are asked another mark.
pub fn spread(s: &mut Side, a: &mut Model, b: &mut Book) {
    b.counts.spread.count();
    let how = b.random.below(4);
    for p in 0..PARTIES as u32 {
        let x = other_number(a, b, p, how);
        a.set_order(p, x);
        s.set_order(p, x);
        spread_mark(s, b, p);
    }
}
