// Asking: the asks of a batch, read from the words in which they are lent.
//
// An ask is seven words: its kind, the party, code, entry, first, second, and how many steps at most. Which of them count is the kind's matter. It promises the
// ask that a definition reads (specs/Asks); words that are no ask, by their kind or because there are fewer than seven left, are one case of their own. It
// rests on nothing.
#![tactic(auto)]

ghost use Rattle.std.specs.Prelude.{◌≡◌, ◌*◌, ◌<◌, length};
ghost use Rattle.asking.specs.Asks.{asking, asking_at};

// The words of an ask.
const WORDS: usize = 7;

#[derive(Clone, Copy, PartialEq, Eq, Debug)]
pub enum Asking {
    Begin(u32),
    // Party, code, entry, first, second.
    Put(u32, u32, u32, u32, u32),
    Step(u32),
    Commit(u32),
    Abort(u32),
    // Party, and how many steps at most.
    Run(u32, u32),
    // A put's numbers, and how many steps at most.
    Request(u32, u32, u32, u32, u32, u32),
    // The call ask.
    Ask(u32),
    // No ask.
    Other,
}

fn asking_of(kind: u32, p: u32, code: u32, entry: u32, first: u32, second: u32, most: u32) -> Asking
    ensures { result ≡ asking kind p code entry first second most }
{
    match kind {
        1 => Asking::Begin(p),
        2 => Asking::Put(p, code, entry, first, second),
        3 => Asking::Step(p),
        4 => Asking::Commit(p),
        5 => Asking::Abort(p),
        6 => Asking::Run(p, most),
        7 => Asking::Request(p, code, entry, first, second, most),
        8 => Asking::Ask(p),
        0 | 9..=4294967295 => Asking::Other,
    }
}

// Ask i of a list of asks that reaches to it, the first being ask 0.
pub fn asking_at(asks: &[u32], i: usize) -> Asking
    requires { 7 * i < length asks.now }
    ensures { result ≡ asking_at asks.now i }
{
    let at = WORDS * i;
    if asks.len() - at < WORDS {
        return Asking::Other;
    }
    asking_of(
        asks[at],
        asks[at + 1],
        asks[at + 2],
        asks[at + 3],
        asks[at + 4],
        asks[at + 5],
        asks[at + 6],
    )
}
