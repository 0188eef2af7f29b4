// Play: the calls that a command makes.
use outcomes::Served;
use scripts::lines::Command;
use sessions::{Code, PARTIES, Session};

// More steps than any request of a store of 700 records takes: it goes down the tree twice at most, and takes each descriptor once.
const STEPS: u32 = 4097;

// A request's put. A put takes the code as a number, as C hands it in.
fn put(
    store: &[u32],
    table: [Session; PARTIES],
    party: u32,
    code: Code,
    entry: u32,
    first: u32,
    second: u32,
) -> Served {
    calls::put(store, table, party, code as u32, entry, first, second)
}

// Steps of a party until the answer is not more: a run.
fn go(store: &mut [u32], list: &mut [u32], table: [Session; PARTIES], party: u32) -> Served {
    let ran = calls::run(store, list, table, party, STEPS);
    let table = ran.table;
    Served {
        table,
        answer: ran.answer,
    }
}

// The call of a command. A recover has no party.
pub fn served(
    store: &mut [u32],
    list: &mut [u32],
    table: [Session; PARTIES],
    command: Command,
) -> Served {
    match command {
        Command::Begin { party } => calls::begin(store, table, party),
        Command::Read { party, entry } => put(store, table, party, Code::Read, entry, 0, 0),
        Command::Write {
            party,
            entry,
            value,
        } => put(store, table, party, Code::Write, entry, value, 0),
        Command::Insert { party, entry, key } => {
            put(store, table, party, Code::Insert, entry, key, 0)
        }
        Command::Remove { party, entry, key } => {
            put(store, table, party, Code::Remove, entry, key, 0)
        }
        Command::Locate {
            party,
            first,
            second,
        } => put(store, table, party, Code::Locate, 0, first, second),
        Command::Tidy { party, first } => put(store, table, party, Code::Tidy, 0, first, 0),
        Command::Step { party } => calls::step(store, list, table, party),
        Command::Go { party } => go(store, list, table, party),
        Command::Commit { party } => calls::commit(store, table, party),
        Command::Abort { party } => calls::abort(store, table, party),
        Command::Ask { party } => calls::ask(store, table, party),
        Command::Recover => calls::recover(store, table),
    }
}

// The command moves a locate that its party has in hand: its answer may have pairs in the list.
pub fn has_locate(table: &[Session; PARTIES], command: Command) -> bool {
    match command {
        Command::Step { party } | Command::Go { party } => table
            .get(party as usize)
            .is_some_and(|session| session.code == Code::Locate as u32),
        _ => false,
    }
}
