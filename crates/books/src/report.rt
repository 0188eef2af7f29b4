// Report: what was counted, a line each: the number and its label. Where something differs, the first difference too.
use crate::book::Book;
use crate::counts::{Counter, Counts, Difference};
use naive::Model;
use std::io;

// The labels of the calls by their kinds, of the answers by their words, of some refusals, with their numbers, and of the model's events.
static KINDS: [&str; 9] = [
    "  format",
    "  begin",
    "  put",
    "  step",
    "  commit",
    "  abort",
    "  day",
    "  ask",
    "  recover",
];

static WORDS: [&str; 5] = [
    "answered ok",
    "answered more",
    "answered wait",
    "answered done",
    "refused, of these",
];

static REFUSALS: [u32; 13] = [3, 4, 5, 6, 7, 8, 9, 10, 11, 12, 13, 14, 21];

static EVENTS: [&str; 50] = [
    "roots split",
    "nodes below the root split",
    "joins with the left neighbour",
    "joins with the right neighbour",
    "moves from the left neighbour",
    "moves from the right neighbour",
    "roots dropped",
    "roots dropped and split in one step",
    "descriptors made",
    "descriptors made in a held gap",
    "descriptors tidied",
    "tidies that declined",
    "tidies with nothing above",
    "inserts that added",
    "inserts of a member",
    "removes that took out",
    "removes of an absent one",
    "reads",
    "writes",
    "locates",
    "keys taken with their gap",
    "waits for an entry",
    "waits for a key",
    "waits for a short lock",
    "waits with several sessions in the way",
    "waits with two short locks in the way",
    "of both, waits that name another than the lowest party",
    "values taken back",
    "inserts taken back",
    "removes taken back",
    "aborts with a request in hand",
    "commits with take-back records",
    "begins that gave a session another number",
    "inserts and removes at a key that another session changes",
    "of these, that two others and more change",
    "inserts and removes taken back under another's newer one",
    "taken back over another's older one",
    "asks accepted",
    "asks of a session that is asked, refused by 21",
    "asks with a request in hand, refused by 7",
    "puts of a session that is asked, refused by 21",
    "commits of an asked session",
    "of these, after a recover",
    "aborts of an asked session",
    "recovers",
    "sessions aborted by recovers",
    "of these, with a request at a node",
    "asked sessions that a recover left",
    "recovers that ended a tidy",
    "of these, at a node",
];

fn line(rt: &impl Print, number: u32, label: &str) -> io::Result<()> {
    println!(rt; "{number} {label}")
}

// What a row of counters counted.
fn tell_row(rt: &impl Print, row: &[Counter], labels: &[&str]) -> io::Result<()> {
    for (counter, label) in row.iter().zip(labels) {
        line(rt, counter.number(), label)?;
    }
    Ok(())
}

fn tell_refusals(rt: &impl Print, counts: &Counts) -> io::Result<()> {
    for by in &REFUSALS {
        let number = counts.refused.get(*by as usize).map_or(0, |c| c.number());
        println!(rt; "{number}   by {by}")?;
    }
    Ok(())
}

fn tell_events(rt: &impl Print, a: &Model) -> io::Result<()> {
    for (event, label) in EVENTS.iter().enumerate() {
        line(rt, a.counted(event as u32), label)?;
    }
    Ok(())
}

fn tell_counts(rt: &impl Print, c: &Counts) -> io::Result<()> {
    let rows = [
        (c.views, "whole comparisons of entries, tree and free count"),
        (c.keys, "comparisons of a key's holders and members"),
        (c.calls, "comparisons of the lists"),
        (c.unchanged, "waits and refusals that changed no word"),
        (c.committed, "committed sessions run on the logical model"),
        (c.unfinished, "aborted sessions run on a copy of it"),
        (c.requests, "finished requests of sessions"),
        (c.contents, "comparisons with the logical content"),
        (c.copies_aborted, "aborts on copies for these"),
        (c.copies_recovered, "recovers on these copies"),
        (c.checked, "stores sound to the checker"),
        (
            c.damaged_sound,
            "copies with a word changed sound to both judges",
        ),
        (
            c.damaged_unsound,
            "copies with a word changed refused by both, by 2",
        ),
        (c.height, "levels of nodes at most"),
        (c.descriptors, "descriptors at most"),
        (c.day_puts, "requests put by day calls"),
        (c.day_steps, "steps by day calls"),
        (c.day_requests, "requests of a day finished before its last"),
        (c.days, "days finished"),
        (c.spread, "tables lent with other numbers in the same order"),
    ];
    for (counter, label) in &rows {
        line(rt, counter.number(), label)?;
    }
    Ok(())
}

fn tell_first(rt: &impl Print, first: Difference) -> io::Result<()> {
    line(rt, first.round, "round of the first difference")?;
    line(rt, first.call, "call in it")?;
    line(rt, first.store, "number of the store")?;
    line(rt, first.model, "number of the model")?;
    rt.println(first.what)
}

pub fn report(rt: &impl Print, a: &Model, b: &Book) -> io::Result<()> {
    line(rt, b.counts.calls.number(), "calls on both, of these")?;
    tell_row(rt, &b.counts.made, &KINDS)?;
    tell_row(rt, &b.counts.answered, &WORDS)?;
    tell_refusals(rt, &b.counts)?;
    tell_events(rt, a)?;
    tell_counts(rt, &b.counts)?;
    if let Some(first) = b.first {
        tell_first(rt, first)?;
    }
    line(rt, b.differences.number(), "differences")
}
