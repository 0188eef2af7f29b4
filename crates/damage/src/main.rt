// Damage: holds the store's own soundness test against the second judge, crate checker, on the samples of standard input and on each of them
// with one word changed.
//
// In the input (crate samples) "Base m r junk" begins a base, "Sample words" a sound sample over the last base, and "Case words clause" one over
// the last sample that this clause alone refuses; its store has so many words or, for 0, those of its header. The lines up to the next of
// these say what it is made of. Each sample is judged; then each of its words is changed in turn, judged and put back.
#![tactic(auto)]

mod judge;
mod tally;
mod values;

ghost use Rattle.std.specs.Io.{ReadsAtMost};

use checker::clauses::CLAUSES;
use judge::{damage, is_only_refused};
use samples::lines::number;
use samples::words::Words;
use std::io;
use std::io::Read;
use tally::{Count, add_one, report};

// The lines of a text.
fn is_end(b: &u8) -> bool {
    *b == b'\n'
}

// What a line begins: a base, a sound sample over the last base, or one over the last sample that a clause alone refuses.
#[derive(Clone, Copy, PartialEq, Eq)]
enum Heading {
    Base,
    Sample,
    Case,
}

fn heading_of(line: &[u8]) -> Option<Heading> {
    match line.first() {
        Some(b'B') => Some(Heading::Base),
        Some(b'S') => Some(Heading::Sample),
        Some(b'C') => Some(Heading::Case),
        _ => None,
    }
}

// Writes what the lines from a heading up to the next say.
fn write(text: &[u8], w: &mut Words) {
    for (i, line) in text.split(is_end).enumerate() {
        if i != 0 && heading_of(line).is_some() {
            return;
        }
        samples::add(w, line);
    }
}

// A sample or case: the text from its base on, from the heading that it is over and from its own.
#[derive(Clone, Copy)]
struct Parts<'a> {
    base: &'a [u8],
    over: &'a [u8],
    own: &'a [u8],
}

// The number that follows space k of the first line of a text.
fn first_number(text: &[u8], k: usize) -> u32 {
    text.split(is_end).next().map_or(0, |line| number(line, k))
}

// Judges a sample or case. No clause refuses a sample.
fn sample(rt: &impl Print, parts: Parts<'_>, clause: u32, w: &mut Words) -> io::Result<()> {
    write(parts.base, w);
    write(parts.over, w);
    write(parts.own, w);
    let words = w.store_words(first_number(parts.own, 1));
    let (all, as_said) = if clause == CLAUSES {
        (Count::Samples, Count::SamplesSound)
    } else {
        (Count::Cases, Count::CasesRefused)
    };
    add_one(w, all);
    if is_only_refused(w, words, clause) {
        add_one(w, as_said);
    }
    damage(rt, w, words)
}

fn run(rt: &impl Print, text: &[u8], w: &mut Words) -> io::Result<()> {
    let mut base = text;
    let mut over = text;
    let mut own = text;
    for line in text.split(is_end) {
        match heading_of(line) {
            Some(Heading::Base) => base = own,
            Some(Heading::Sample) => {
                over = own;
                sample(
                    rt,
                    Parts {
                        base,
                        over: base,
                        own,
                    },
                    CLAUSES,
                    w,
                )?;
            }
            Some(Heading::Case) => sample(rt, Parts { base, over, own }, number(line, 2), w)?,
            None => {}
        }
        own = own.get(line.len() + 1..).unwrap_or(&[]);
    }
    Ok(())
}

// Reads until buf is full or the input ends; how many bytes were read.
fn read_full(rt: &impl Input, buf: &mut [u8]) -> io::Result<usize>
    ensures { ReadsAtMost result buf.new }
{
    let mut reader = rt.reader();
    let mut done = 0;
    while done < buf.len() {
        let n = reader.read(&mut buf[done..])?;
        if n == 0 {
            return Ok(done);
        }
        done += n;
    }
    Ok(done)
}

fn main(rt: HostRuntime) -> io::Result<()> {
    let mut text = [0u8; 65536];
    let n = read_full(&rt, &mut text)?;
    let mut w = Words::new();
    run(&rt, &text[..n], &mut w)?;
    report(&rt, &w)
}
