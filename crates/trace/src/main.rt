// Trace: plays the script of standard input, of any length, and writes what its lines tell.
//
// The store has 16 entries and 700 records, the lent list 1,024 words. Crate tracing says what a script is. If the input cannot be read or what was told
// cannot be written, it says so on standard error, with the system's reason, and stops.
#![tactic(auto)]

use arrayvec::ArrayString;
use failures::Failure;
use scripts::text::Told;
use std::fmt::Write;
use std::io::Read;
use tracing::{LIST, STORE, Script};

// Room for the longest line: a number of 20 digits, a word, two numbers, 512 pairs of at most 22 bytes.
type Text = ArrayString<16384>;

// Writes what was told, each line at once, however long it is.
fn show(rt: &impl Print, text: &mut Text, told: Option<Told<'_>>) -> Result<(), Failure> {
    let Some(told) = told else {
        return Ok(());
    };
    text.clear();
    let _ = text.writeln(told);
    rt.write_all(text.as_str().as_bytes())
        .map_err(Failure::Output)
}

fn play(
    rt: &impl Print,
    store: &mut [u32],
    list: &mut [u32],
    text: &mut Text,
    script: &mut Script,
    bytes: &[u8],
) -> Result<(), Failure> {
    for byte in bytes {
        show(rt, text, script.read_byte(store, list, *byte))?;
    }
    Ok(())
}

// Nothing says that the input ends, so the reads are counted, up to a number that no run uses up.
fn play_all(rt: &(impl Input + Print), store: &mut [u32], list: &mut [u32]) -> Result<(), Failure> {
    let mut script = Script::start(store);
    let mut text = Text::new();
    let mut reader = rt.reader();
    let mut buf = [0u8; 4096];
    for _ in 0..u64::MAX {
        let n = reader.read(&mut buf).map_err(Failure::Input)?;
        if n == 0 {
            break;
        }
        play(rt, store, list, &mut text, &mut script, &buf[..n])?;
    }
    show(rt, &mut text, script.read_end(store, list))
}

fn main(rt: HostRuntime) {
    let mut store = [0; STORE];
    let mut list = [0; LIST];
    if let Err(failure) = play_all(&rt, &mut store, &mut list) {
        let _ = eprintln!(rt; "trace: {failure}");
    }
}
