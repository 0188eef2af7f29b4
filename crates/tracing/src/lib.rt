// Tracing: scripts of calls as text. A script is read byte by byte; each line that ends is played on a store and told as a line of text.
//
// A line is a letter and numbers in base ten: b begin, r w i d l t the six requests in the order of their codes, s one step, g steps until the answer is
// not more, c commit, a abort, k ask; then the party and the arguments that its code uses, in the order entry, first, second; or v, recover, with no
// number. From a # on the rest of a line is a comment. A line that is blank or only a comment is counted and tells nothing; any other line that is not of
// this form is told as malformed and makes no call. docs/TRACE.md has all of it for whoever writes scripts. What is promised here is that every function is
// safe and ends, and that only the end of a line tells something; what a call does is promised by `calls`. It rests on `calls`, on `endings` for the table
// at the start, on `scripts` for the text of a line and of an answer, on `words` for the words of an entry.
#![tactic(auto)]

ghost use Rattle.std.specs.Prelude.{◌≡◌, ◌≢◌, ◌≤◌, IsNone};

pub mod play;

use endings::fresh_session;
use play::{has_locate, served};
use scripts::lines::{Command, Line};
use scripts::text::{Outcome, Told};
use sessions::{PARTIES, Session};
use std::mem;
use words::ENTRY_WORDS;

// Words of the store: those of the header, of 16 entries and of 700 records.
pub const STORE: usize = 16 + ENTRY_WORDS * ENTRIES as usize + 20 * 700;

// Words of the lent list.
pub const LIST: usize = 1024;

pub const ENTRIES: u32 = 16;

// A script so far: the session table, the line in hand, and how many lines have ended. Its store and its list are lent to each call, so that it can be copied.
#[derive(Clone, Copy)]
pub struct Script {
    pub table: [Session; PARTIES],
    pub line: Line,
    pub number: u64,
}

impl Script {
    // A script at its start, over a store that is formatted for it.
    pub fn start(store: &mut [u32]) -> Self
        ensures { result.number ≡ 0 }
    {
        let formatted = calls::format(store, [fresh_session(); PARTIES], ENTRIES);
        let table = formatted.table;
        Script {
            table,
            line: Line::new(),
            number: 0,
        }
    }

    // Reads a byte of the script. If it ends a line that is told, this is what it tells.
    pub fn read_byte<'a>(
        &mut self,
        store: &mut [u32],
        list: &'a mut [u32],
        byte: u8,
    ) -> Option<Told<'a>>
        ensures { byte ≢ 10 → IsNone result }
    {
        if byte == b'\n' {
            return self.read_end(store, list);
        }
        self.line.push(byte);
        None
    }

    // The script is at its end: a last line that has no line end is played too.
    pub fn read_end<'a>(&mut self, store: &mut [u32], list: &'a mut [u32]) -> Option<Told<'a>> {
        let line = mem::replace(&mut self.line, Line::new());
        let number = self.number.saturating_add(1);
        self.number = number;
        let outcome = match line.command() {
            Ok(None) => return None,
            Ok(Some(command)) => self.play(store, list, command),
            Err(_) => Outcome::Malformed,
        };
        Some(Told { number, outcome })
    }

    fn play<'a>(
        &mut self,
        store: &mut [u32],
        list: &'a mut [u32],
        command: Command,
    ) -> Outcome<'a> {
        let is_locate = has_locate(&self.table, command);
        let served = served(store, list, self.table, command);
        let table = served.table;
        self.table = table;
        if is_locate {
            Outcome::Located(served.answer, list)
        } else {
            Outcome::Answered(served.answer)
        }
    }
}
