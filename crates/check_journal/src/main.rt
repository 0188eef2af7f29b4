// Check journal: reads a journal from standard input and prints the verdict on it, `ok`, `15`, `16` or `17`, and a line end.
//
// The input is held whole, in one byte more than the longest journal has: where all of them are filled the input is too long, and the verdict is 15 whatever
// follows. If the input cannot be read or the verdict not written, it says so on standard error, with the system's reason, and prints nothing else.
//
// The stack: 65,537 bytes for the input and some 21,000 for the replay, less than 100 KiB in all.
#![tactic(auto)]

ghost use Rattle.std.specs.Prelude.{◌≡◌, ◌≤◌, length, IfOk};
ghost use Rattle.journal_lines.specs.Journal.{verdict_of};
ghost use Rattle.check_journal.specs.Text.{text_of};
ghost use Rattle.check_journal.specs.Cut.{room};

use failures::Failure;
use std::io;
use std::io::Read;

// Room for the input.
fn empty() -> [u8; 65537]
    ensures { room ≡ length result }
{
    [0; 65537]
}

// Reads until buf is full or the input ends; what was read. A buffer on the stack and no Vec: the program needs no heap.
fn read_input<'a>(rt: &impl io::Input, buf: &'a mut [u8]) -> Result<&'a [u8], Failure>
    ensures { IfOk result (λ bytes. length bytes.now ≤ length buf.old) }
{
    let mut reader = rt.reader();
    let mut done = 0;
    while done < buf.len() {
        let n = reader.read(&mut buf[done..]).map_err(Failure::Input)?;
        if n == 0 {
            break;
        }
        done += n;
    }
    Ok(&buf[..done])
}

// A verdict as it is printed, with the line end; a number, as journal::verdict gives it.
fn text(verdict: u32) -> [u8; 3]
    ensures { result ≡ text_of verdict }
{
    match verdict {
        0 => *b"ok\n",
        15 => *b"15\n",
        16 => *b"16\n",
        _ => *b"17\n",
    }
}

// The verdict on a journal, as it is printed.
fn judge(bytes: &[u8]) -> [u8; 3]
    ensures { result ≡ text_of (verdict_of bytes.now) }
{
    text(journal::verdict(bytes))
}

fn run(rt: &(impl io::Input + Print)) -> Result<(), Failure> {
    let mut buf = empty();
    let bytes = read_input(rt, &mut buf)?;
    rt.write_all(&judge(bytes)).map_err(Failure::Output)
}

fn main(rt: HostRuntime) {
    if let Err(failure) = run(&rt) {
        let _ = eprintln!(rt; "check_journal: {failure}");
    }
}
