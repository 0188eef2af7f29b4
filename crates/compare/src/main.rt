// Compare: a second model beside the store on long random schedules of 6 and of 16 sessions and the housekeeper.
//
// Every call is made on the store (crate calls) and on a second model that was written from document 01 and document 02's M-101, M-104 and M-105
// alone (crate naive). A day call is on that model the put or step that a second reading of the day makes of it. Answers and lists are compared at every
// call, the party that a wait names among them, the place too that a day call returns, and all words where none may change: none but its mark at an ask,
// none of an asked session's record at a recover. Entries, the holders and members of keys, free count, tree, the numbers in the order of begins and who is
// asked are compared at every call that may change a word. Now and then a call is made on a table with other such numbers in the same order and with other
// marks of those that are asked. Each committed session runs whole on the logical model, in order of commit, and each aborted one, by abort or by recover,
// on a copy; at every commit and at the end the store, with all that are unfinished aborted, is compared with the logical content. The checker judges the
// store throughout, and after each recover. Random and fixed: each run is the same.
//
// run has what such a run has; serve makes a call on the store, days a day call, make either on both; content compares a copy with all sessions aborted with
// the logical model; judge asks the checker about the store and about a copy with one word changed, and the store about that copy; rounds has the schedules.
#![tactic(auto)]

mod content;
mod days;
mod judge;
mod make;
mod rounds;
mod run;
mod serve;

use books::report::report;
use run::Run;
use std::io;

const ROUNDS: u32 = 40;

fn main(rt: HostRuntime) -> io::Result<()> {
    let mut run = Run::new(19890229);
    for number in 0..ROUNDS {
        run.round(number);
    }
    report(&rt, &run.model, &run.book)
}
