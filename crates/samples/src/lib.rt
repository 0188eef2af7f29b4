// Samples: small stores with their session tables, written word by word from lines of text.
//
// A line is a word, of which only the first letter counts, and numbers. Base, Sample and Case begin a store and are for the reader of the
// lines; any other line adds a part, or changes a word. What is not a number ends a line. It shares no code with the store and rests on
// nothing.
#![tactic(auto)]

mod build;
pub mod lines;
pub mod words;

use build::{
    AT, BEGUN, CODE, ENTRY, EXCLUSIVE, GAP, GROUP, HIGH, LAST, LATCH, LEVEL, LOCATE, LOW, ORDER,
    PINS, SAVED, SHARE, STAGE, Stage, TARGET, UPDATE, UndoKind, base, descriptor, free_from,
    member, node, undo,
};
use lines::number;
use words::{PARTIES, STORE, Words, entry_place};

// The words of the header from the root's on.
fn root(w: &mut Words, record: u32, height: u32, first: u32) {
    w.set(STORE + 2, record);
    w.set(STORE + 3, height);
    w.set(STORE + 4, first);
}

// Session b becomes a holder at this place.
fn hold(w: &mut Words, at: usize, b: u32) {
    w.change(at, |x| x | words::bit(b));
}

// A holder of key or gap of record a.
fn hold_record(w: &mut Words, a: u32, k: u32, b: u32) {
    let at = w.record_place(a, k);
    hold(w, at, b);
}

// Party a pins descriptor b, which has one pin more.
fn pin(w: &mut Words, a: u32, k: u32, b: u32) {
    w.set_field(a, k, b);
    let pins = w.record_place(b, PINS);
    w.change(pins, |x| x.wrapping_add(1));
}

// Session a begins, with this mark. If no line gives it another place in the order of begins, the last one's is 1.
fn begin(w: &mut Words, a: u32, mark: u32) {
    w.set_field(a, BEGUN, mark);
    w.set_field(a, ORDER, (PARTIES as u32).wrapping_sub(a));
}

// Party a comes to a stage.
fn come(w: &mut Words, a: u32, stage: Stage) {
    w.set_field(a, STAGE, stage as u32);
}

// Party a puts a request, and begins if it is a session.
fn put(w: &mut Words, a: u32, request: [u32; 4]) {
    for (k, x) in request.iter().enumerate() {
        w.set_field(a, CODE + k as u32, *x);
    }
    come(w, a, Stage::Start);
    if a != 0 {
        begin(w, a, 1);
    }
}

// Party a, on its way to a key, has come to a node, whose latch it has.
fn here(w: &mut Words, a: u32, target: u32, node: u32, level: u32) {
    w.set_field(a, TARGET, target);
    w.set_field(a, AT, node);
    w.set_field(a, LEVEL, level);
    come(w, a, Stage::Here);
    w.set_record(node, LATCH, a.wrapping_add(1));
}

// Undo record b of session a: of a write to an entry, of a member of a group that was added, or was taken out.
fn wrote(w: &mut Words, a: u32, b: u32, entry: u32) {
    w.set_record(b, ENTRY, entry);
    undo(w, UndoKind::Write, a, b);
}

fn added(w: &mut Words, a: u32, b: u32, entry: u32, group: u32, membership: u32) {
    w.set_record(b, ENTRY, entry);
    w.set_record(b, SAVED, membership);
    w.set_record(b, GROUP, group);
    undo(w, UndoKind::Added, a, b);
}

fn taken_out(w: &mut Words, a: u32, b: u32, entry: u32, group: u32) {
    w.set_record(b, ENTRY, entry);
    w.set_record(b, GROUP, group);
    undo(w, UndoKind::Out, a, b);
}

// What the line says of records: a base, a root, descriptors, nodes, free ones, memberships and undo records, and one word of any.
fn add_record(w: &mut Words, letter: u8, numbers: [u32; 5]) {
    let [a, b, c, d, e] = numbers;
    match letter {
        b'B' => base(w, a, b, c),
        b'r' => root(w, a, b, c),
        b'd' => descriptor(w, a, b, c),
        b'n' => node(w, a, b, c),
        b'f' => free_from(w, a),
        b'm' => member(w, a, b, c),
        b'w' => wrote(w, a, b, c),
        b'a' => added(w, a, b, c, d, e),
        b'o' => taken_out(w, a, b, c, d),
        b'H' => w.set(STORE + a as usize, b),
        b'E' => w.set(entry_place(a, b), c),
        b'R' => w.set_record(a, b, c),
        _ => {}
    }
}

// What it says of holders and pins.
fn add_holder(w: &mut Words, letter: u8, a: u32, b: u32) {
    match letter {
        b's' => hold(w, entry_place(a, SHARE), b),
        b'e' => hold(w, entry_place(a, EXCLUSIVE), b),
        b'l' => hold_record(w, a, LOCATE, b),
        b'u' => hold_record(w, a, UPDATE, b),
        b'g' => hold_record(w, a, GAP, b),
        b'L' => pin(w, a, LOW, b),
        b'U' => pin(w, a, HIGH, b),
        _ => {}
    }
}

// What it says of a party: that it begins, puts a request, or comes to a stage; and one word of any.
fn add_party(w: &mut Words, letter: u8, numbers: [u32; 5]) {
    let [a, b, c, d, e] = numbers;
    match letter {
        b'b' => begin(w, a, b),
        b'p' => put(w, a, [b, c, d, e]),
        b'i' => {
            w.set_field(a, TARGET, b);
            come(w, a, Stage::Enter);
        }
        b'h' => here(w, a, b, c, d),
        b'c' => come(w, a, Stage::Change),
        b't' => {
            w.set_field(a, LAST, b);
            come(w, a, Stage::Take);
        }
        b'P' => w.set_field(a, b, c),
        _ => {}
    }
}

// Adds what a line says to a store and its table.
pub fn add(w: &mut Words, line: &[u8]) {
    if let Some(letter) = line.first() {
        let numbers = [
            number(line, 1),
            number(line, 2),
            number(line, 3),
            number(line, 4),
            number(line, 5),
        ];
        add_record(w, *letter, numbers);
        add_holder(w, *letter, numbers[0], numbers[1]);
        add_party(w, *letter, numbers);
    }
}
