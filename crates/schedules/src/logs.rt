// Logs: what a session has finished since its begin: each request, and what it answered.
ghost use Rattle.std.specs.Prelude.{◌≤◌};
ghost use Rattle.schedules.specs.declared.logs.TheConstants.{ROOM};

use crate::content::Content;
use crate::requests::{Code, Request};

// How many requests there is room for; where there is none left, a log begins anew.
pub const ROOM: usize = 200;

#[derive(Clone, Copy)]
struct Finished {
    request: Request,
    answer: u32,
}

// It has room for a fixed number of requests, since a run has no heap.
#[derive(Clone, Copy)]
pub struct Log {
    finished: [Finished; ROOM],
    len: usize,
    ghost fits: { len ≤ ROOM },
}

impl Log {
    pub fn new() -> Self {
        let nothing = Finished {
            request: Request::new(Code::Read, 0, 0, 0),
            answer: 0,
        };
        Log {
            finished: [nothing; ROOM],
            len: 0,
        }
    }

    // How many requests there are.
    pub fn len(&self) -> usize {
        self.len
    }

    pub fn clear(&mut self) {
        self.len = 0;
    }

    // The request is finished, and this is what it answered.
    pub fn push(&mut self, request: Request, answer: u32) {
        if self.len == ROOM {
            self.len = 0;
        }
        self.finished[self.len] = Finished { request, answer };
        self.len += 1;
    }

    // Runs what is finished, in turn; the number, from 1, of the first request that answers something else.
    pub fn replay(&self, content: &mut Content) -> Option<usize> {
        let wrong = self.finished[..self.len]
            .iter()
            .position(|f| content.run(f.request) != f.answer)?;
        Some(wrong + 1)
    }
}
