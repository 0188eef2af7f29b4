// Vectors: plays scripts whose text is known, and compares.
//
// The arguments name files two by two: a script, and the text that it must give. Each script has a store of its own, as in crate trace. A file that cannot
// be read, or not whole, counts as a difference, and it says so on standard error.
#![tactic(auto)]

ghost use Rattle.std.specs.Prelude.{◌≤◌, ◌<◌, length, IfOk};

mod expected;

use expected::Expected;
use failures::{Failure, Reason};
use scripts::text::Told;
use std::env::FillError;
use std::fmt::Write;
use std::io::Read;
use std::rt::{Env, Files};
use std::{fmt, fs, io, str};
use tracing::{LIST, STORE, Script};

// The most bytes that a file may have, and room for one more.
const LIMIT: usize = 65536;

const ROOM: usize = LIMIT + 1;

// Why a file was not read whole.
#[derive(Debug, Drop)]
enum LoadError {
    TooLong,
    Unread(io::Error),
}

impl From<io::Error> for LoadError {
    fn from(error: io::Error) -> Self {
        LoadError::Unread(error)
    }
}

impl fmt::Display for LoadError {
    fn fmt<W: fmt::Write>(&self, f: &mut fmt::Formatter<W>) -> fmt::Result {
        match self {
            LoadError::TooLong => write!(f, "more than {LIMIT} bytes"),
            LoadError::Unread(error) => write!(f, "{}", Reason(error)),
        }
    }
}

fn compare(expected: &mut Expected<'_>, told: Option<Told<'_>>) -> fmt::Result {
    match told {
        Some(told) => expected.writeln(told),
        None => Ok(()),
    }
}

// Plays a script; an error where it tells anything but what is expected.
fn play(script: &[u8], expected: &mut Expected<'_>) -> fmt::Result {
    let mut store = [0; STORE];
    let mut list = [0; LIST];
    let mut player = Script::start(&mut store);
    for byte in script {
        compare(expected, player.read_byte(&mut store, &mut list, *byte))?;
    }
    compare(expected, player.read_end(&mut store, &mut list))
}

// Whether the script gives this text, no more and no less.
fn is_right(script: &[u8], wanted: &[u8]) -> bool {
    let mut expected = Expected { rest: wanted };
    play(script, &mut expected).is_ok() && expected.rest.is_empty()
}

// Argument i, put at the start of buf. One that is missing, or has more bytes than buf, is empty. Arguments are read as bytes, since those of std are text,
// and a file may have any name.
fn arg<'a>(rt: &impl Env, i: usize, buf: &'a mut [u8]) -> &'a [u8]
    ensures { length result.now ≤ length buf.old }
{
    match rt.arg(i, buf) {
        Ok(n) => &buf[..n],
        Err(_) => &[],
    }
}

// How many arguments there are, the program's own name among them.
fn arg_count(rt: &impl Env) -> usize {
    let mut buf = [0; 4096];
    for i in 0..usize::MAX {
        if let Err(FillError::NotPresent) = rt.arg(i, &mut buf) {
            return i;
        }
    }
    usize::MAX
}

// Reads the file at this path into the buffer, which has room for the first byte that is too much; what was read. A buffer on the stack and no Vec: the
// program needs no heap.
fn load<'a>(rt: &impl Files, path: &str, buf: &'a mut [u8]) -> Result<&'a [u8], LoadError>
    ensures { IfOk result (λ bytes. length bytes.now < length buf.old) }
{
    let mut file = fs::open(rt, path)?;
    let mut done = 0;
    while done < buf.len() {
        let n = file.read(&mut buf[done..])?;
        if n == 0 {
            return Ok(&buf[..done]);
        }
        done += n;
    }
    Err(LoadError::TooLong)
}

// Reads the file that argument i names. If it cannot, it says so on standard error. A name that is no text is that of no file.
fn load_arg<'a>(rt: &(impl Env + Files + Eprint), i: usize, buf: &'a mut [u8]) -> Option<&'a [u8]> {
    let mut name = [0; 4096];
    let path = str::from_utf8(arg(rt, i, &mut name)).unwrap_or("");
    match load(rt, path, buf) {
        Ok(bytes) => Some(bytes),
        Err(error) => {
            let _ = eprintln!(rt; "{path}: {error}");
            None
        }
    }
}

// Plays the script that argument i names; whether its text is that of argument j.
fn is_same(rt: &(impl Env + Files + Eprint), i: usize, j: usize) -> bool {
    let mut script = [0; ROOM];
    let mut wanted = [0; ROOM];
    let script = load_arg(rt, i, &mut script);
    let wanted = load_arg(rt, j, &mut wanted);
    match (script, wanted) {
        (Some(script), Some(wanted)) => is_right(script, wanted),
        _ => false,
    }
}

fn tell(rt: &(impl Env + Print), i: usize, text: &str) {
    let mut name = [0; 4096];
    let _ = rt.write_all(arg(rt, i, &mut name));
    let _ = rt.println(text);
}

// Plays the script that argument i names, and tells whether its text differs from that of argument j.
fn differs(rt: &(impl Env + Files + Print + Eprint), i: usize, j: usize) -> bool {
    let is_same = is_same(rt, i, j);
    tell(rt, i, if is_same { " same" } else { " differs" });
    !is_same
}

fn report(rt: &impl Print, scripts: usize, different: usize) -> Result<(), Failure> {
    println!(rt; "{scripts} scripts, {different} differences").map_err(Failure::Output)
}

fn main(rt: HostRuntime) {
    let pairs = arg_count(&rt) / 2;
    let mut different = 0usize;
    for k in 0..pairs {
        if differs(&rt, 2 * k + 1, 2 * k + 2) {
            different += 1;
        }
    }
    if let Err(failure) = report(&rt, pairs, different) {
        let _ = eprintln!(rt; "vectors: {failure}");
    }
}
