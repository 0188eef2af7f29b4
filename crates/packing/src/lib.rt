// Packing: an answer in one number of 64 bits, as it crosses to C.
//
// It promises that the number is the packing of the answer, and of how many steps were made for it or, of a day call, of its place, which loses nothing:
// both are read back from it (specs/Packed). It rests on outcomes for answers, on serial for answers as they are told.
#![tactic(auto)]

ghost use Rattle.std.specs.Prelude.{◌≡◌, ◌<◌, ◌≤◌};
ghost use Rattle.outcomes.specs.Said.{said, day_place};
ghost use Rattle.packing.specs.Packed.{box, Packs, PacksMade, PacksDay};

use outcomes::{Answer, DayAnswer, Made};

// What stands above an answer's word (how many numbers it has, or a day call's place), its word, the second number and the value, in one number. The words
// are numbers because C reads them so: 0 ok, 1 more, 2 wait, 3 done, 4 refused.
fn boxed(top: u32, word: u64, number: u32, value: u32) -> u64
    requires { (top ≤ 65535) × (word < 256) }
    ensures { (result ≡ box top word number value) × (value < 4294967296) }
{
    let high = (top as u64 * 256 + word) * 256 + (number % 256) as u64;
    high * 4294967296 + value as u64
}

// The answer in one number.
pub fn pack(a: Answer) -> u64
    ensures { Packs (said a) result }
{
    match a {
        Answer::Ok => boxed(0, 0, 0, 0),
        Answer::More => boxed(0, 1, 0, 0),
        Answer::Wait(p) => boxed(1, 2, 0, p),
        Answer::Done(n) => boxed(1, 3, 0, n),
        Answer::Tidied(k, b) => boxed(2, 3, b, k),
        Answer::Refused(n, k) => boxed(2, 4, n, k),
    }
}

// The answer and how many steps were made for it, in one number.
pub fn pack_made(m: Made) -> u64
    requires { m.steps ≤ 16383 }
    ensures { PacksMade m.steps (said m.answer) result }
{
    m.steps as u64 * 1125899906842624 + pack(m.answer)
}

// The answer of a day call and its place, in one number.
pub fn pack_day(a: DayAnswer) -> u64
    requires { day_place a ≤ 65535 }
    ensures { PacksDay a result }
{
    match a {
        DayAnswer::Ok(j) => boxed(j, 0, 0, 0),
        DayAnswer::More(j) => boxed(j, 1, 0, 0),
        DayAnswer::Wait(q, j) => boxed(j, 2, 0, q),
        DayAnswer::Done(n, j) => boxed(j, 3, 0, n),
        DayAnswer::Refused(n, k) => boxed(0, 4, n, k),
    }
}
