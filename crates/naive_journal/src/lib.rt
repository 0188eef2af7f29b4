// Naive journal: a second checker of journals, to be run beside the first and compared with it. It is written from document 02's M-102, document 01 and the
// decisions on journals, which the first one follows too: where a decision is wrong, both are.
//
// Every chain is written down, with a mark for each record that it meets. The committed runs are done one behind another, in order of commit. What they write
// is a list of writes, where the value of an entry is found from the end; their memberships are a bag in no order. A list is right if each of its pairs is a
// membership in the range and comes behind the one before, and if there are as many as the bag has in the range.
//
// It promises that every function is safe and ends, on any bytes. That it does what these say is tested and not proved.
#![tactic(auto)]

mod chains;
mod held;
mod records;
mod rules;
mod runs;

use chains::chain;
use records::{Code, Journal, RECORDS};
use rules::are_kept;
use runs::are_repeated;

// Why a journal is refused, with the numbers of document 02.
#[derive(Clone, Copy, PartialEq, Eq, Debug)]
enum Refusal {
    Form = 15,
    Rules = 16,
    Answers = 17,
}

// Do the lists of all locates on the main chain end?
fn do_lists_end(journal: Journal<'_>, main: &[u32]) -> bool {
    let mut room = [0; RECORDS];
    main.iter()
        .map(|number| journal.record(*number))
        .filter(|record| record.code() == Some(Code::Locate))
        .all(|record| chain(journal, record.list(), &mut room).is_some())
}

fn judge(bytes: &[u8]) -> Result<(), Refusal> {
    let journal = Journal::new(bytes).ok_or(Refusal::Form)?;
    let mut room = [0; RECORDS];
    let main = chain(journal, 1, &mut room).ok_or(Refusal::Form)?;
    if !do_lists_end(journal, main) {
        return Err(Refusal::Form);
    }
    if !are_kept(journal, main) {
        return Err(Refusal::Rules);
    }
    if !are_repeated(journal, main) {
        return Err(Refusal::Answers);
    }
    Ok(())
}

// What a journal is refused by, 15, 16 or 17, or 0. It is a number, as the verdict of crate journal is, which it is compared with.
pub fn verdict(bytes: &[u8]) -> u32 {
    match judge(bytes) {
        Ok(()) => 0,
        Err(refusal) => refusal as u32,
    }
}
