// Report: what was counted, and the first difference.
use changed_journals::{CHANGES, Change};
use made_journals::book::{Book, raise};
use std::{fmt, io};

// How many journals have each verdict.
#[derive(Clone, Copy, Default)]
struct Counts {
    accepted: u32,
    by_15: u32,
    by_16: u32,
    by_17: u32,
}

// What both checkers say of a journal where they differ.
#[derive(Clone, Copy)]
struct Difference {
    number: u32,
    change: Change,
    first: u32,
    second: u32,
}

#[derive(Drop)]
pub struct Report {
    // How many journals are of 2,048 records.
    pub full: u32,
    counts: [Counts; CHANGES],
    differences: u32,
    first: Option<Difference>,
}

impl Counts {
    fn note(&mut self, verdict: u32) {
        raise(match verdict {
            0 => &mut self.accepted,
            15 => &mut self.by_15,
            16 => &mut self.by_16,
            _ => &mut self.by_17,
        });
    }

    fn add(&mut self, other: &Counts) {
        self.accepted = self.accepted.wrapping_add(other.accepted);
        self.by_15 = self.by_15.wrapping_add(other.by_15);
        self.by_16 = self.by_16.wrapping_add(other.by_16);
        self.by_17 = self.by_17.wrapping_add(other.by_17);
    }
}

impl fmt::Display for Counts {
    fn fmt<W: fmt::Write>(&self, f: &mut fmt::Formatter<W>) -> fmt::Result {
        let accepted = self.accepted;
        let by_15 = self.by_15;
        let by_16 = self.by_16;
        let by_17 = self.by_17;
        write!(
            f,
            "{accepted} accepted, {by_15} by 15, {by_16} by 16, {by_17} by 17"
        )
    }
}

impl fmt::Display for Difference {
    fn fmt<W: fmt::Write>(&self, f: &mut fmt::Formatter<W>) -> fmt::Result {
        let number = self.number;
        let change = self.change;
        let first = self.first;
        let second = self.second;
        write!(
            f,
            "{number}. journal, {change}: {first} by the first checker, {second} by the second"
        )
    }
}

impl Report {
    pub fn new() -> Self {
        Report {
            full: 0,
            counts: [Counts::default(); CHANGES],
            differences: 0,
            first: None,
        }
    }

    // Counts what the first checker and the second say of a journal with this change.
    pub fn note(&mut self, number: u32, change: Change, first: u32, second: u32) {
        if let Some(counts) = self.counts.get_mut(change as usize) {
            counts.note(second);
        }
        if first == second {
            return;
        }
        raise(&mut self.differences);
        if self.first.is_none() {
            self.first = Some(Difference {
                number,
                change,
                first,
                second,
            });
        }
    }

    // How many journals with a change have each verdict.
    fn sum(&self) -> Counts {
        let mut sum = Counts::default();
        for counts in self.counts.iter().skip(1) {
            sum.add(counts);
        }
        sum
    }

    fn tell_changes(&self, rt: &impl Print) -> io::Result<()> {
        for (change, counts) in Change::ALL.iter().zip(self.counts.iter()) {
            println!(rt; "{change}: {counts}")?;
        }
        let sum = self.sum();
        println!(rt; "{} changed journals accepted", sum.accepted)?;
        println!(rt; "{} refused by 15", sum.by_15)?;
        println!(rt; "{} refused by 16", sum.by_16)?;
        println!(rt; "{} refused by 17", sum.by_17)
    }

    fn tell_differences(&self, rt: &impl Print) -> io::Result<()> {
        if let Some(difference) = self.first {
            println!(rt; "{difference}")?;
        }
        println!(rt; "{} differences", self.differences)
    }

    pub fn tell(&self, rt: &impl Print, b: &Book) -> io::Result<()> {
        let tally = b.tally;
        println!(rt; "{} journals made, of these", b.number)?;
        println!(rt; "{}   of 2048 records", self.full)?;
        println!(rt; "{} committed runs", tally.runs)?;
        println!(rt; "{} requests of these", tally.done)?;
        println!(rt; "{} requests of other runs", tally.undone)?;
        println!(rt; "{} list records made", tally.made)?;
        println!(rt; "{} list records shared, of these", tally.shared)?;
        println!(rt; "{}   on the main chain", tally.crossed)?;
        self.tell_changes(rt)?;
        self.tell_differences(rt)
    }
}
