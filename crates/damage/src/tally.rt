// Tally: what is counted, in the words behind a sample, and how it is told. A line of the input may name these words too, so they stay there.
use samples::words::{BEHIND, Words};
use std::io;

// Where what is counted stands behind the sample.
#[derive(Clone, Copy)]
pub enum Count {
    // Sound samples, and how many of these the checker accepts.
    Samples,
    SamplesSound,
    // Cases, and how many of these their clause alone refuses.
    Cases,
    CasesRefused,
    // Stores judged: refused by both, accepted by both, judged differently; of these, sound to the test alone and sound to the checker alone.
    Refused,
    Accepted,
    Differences,
    TestAlone,
    PaperAlone,
    // The number of the change that was judged differently last.
    Change,
}

// What test and checker say of a store.
#[derive(Clone, Copy, PartialEq, Eq)]
pub enum Verdict {
    Refused,
    Accepted,
    TestAlone,
    PaperAlone,
}

impl Verdict {
    pub fn new(test: bool, paper: bool) -> Self {
        match (test, paper) {
            (false, false) => Verdict::Refused,
            (true, true) => Verdict::Accepted,
            (true, false) => Verdict::TestAlone,
            (false, true) => Verdict::PaperAlone,
        }
    }

    // Where it is counted.
    fn place(self) -> Count {
        match self {
            Verdict::Refused => Count::Refused,
            Verdict::Accepted => Count::Accepted,
            Verdict::TestAlone => Count::TestAlone,
            Verdict::PaperAlone => Count::PaperAlone,
        }
    }

    fn is_difference(self) -> bool {
        self == Verdict::TestAlone || self == Verdict::PaperAlone
    }
}

fn number(w: &Words, k: Count) -> u32 {
    w.get(BEHIND + k as usize)
}

pub fn add_one(w: &mut Words, k: Count) {
    w.set(BEHIND + k as usize, number(w, k).wrapping_add(1));
}

// A difference: the sample or case by its number, the change, and how many are judged by test or checker alone by now.
fn tell(rt: &impl Print, w: &Words) -> io::Result<()> {
    let samples = number(w, Count::Samples);
    let cases = number(w, Count::Cases);
    let change = number(w, Count::Change);
    let test = number(w, Count::TestAlone);
    let paper = number(w, Count::PaperAlone);
    println!(rt;
        "{samples}. sample, {cases}. case, change {change}: now {test} sound to the test alone, {paper} to the checker alone"
    )
}

// Counts what was said of change r. The first differences are told one by one.
pub fn note(rt: &impl Print, w: &mut Words, verdict: Verdict, r: u32) -> io::Result<()> {
    add_one(w, verdict.place());
    if !verdict.is_difference() {
        return Ok(());
    }
    add_one(w, Count::Differences);
    w.set(BEHIND + Count::Change as usize, r);
    if number(w, Count::Differences) <= 60 {
        tell(rt, w)?;
    }
    Ok(())
}

pub fn report(rt: &impl Print, w: &Words) -> io::Result<()> {
    let samples = number(w, Count::Samples);
    let sound = number(w, Count::SamplesSound);
    println!(rt; "{samples} sound samples, {sound} of them sound to the checker")?;
    let cases = number(w, Count::Cases);
    let refused = number(w, Count::CasesRefused);
    println!(rt; "{cases} cases, {refused} of them refused by their clause alone")?;
    println!(rt; "{} refused by both", number(w, Count::Refused))?;
    println!(rt; "{} accepted by both", number(w, Count::Accepted))?;
    println!(rt; "{} differences", number(w, Count::Differences))
}
