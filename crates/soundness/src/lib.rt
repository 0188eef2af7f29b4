// Soundness: the test of a store and its session table is true exactly if they are sound as document 01 says, with document 02's M-101 and M-104.
//
// It promises: `is_sound` answers exactly whether `meaning.Sound` holds. specs/: Parts (what each number of the test stands for), Tested (what each pass
// leaves for the next), a file for each pass, Walked (each pass goes well exactly if its part holds), Named (the number that the test answers names the first
// part that is broken), Sounds and Exactly (Sound is all parts; the two directions, `test-sound` and `sound-test`). It rests on the crates of the test for
// its definition, on `meaning` for what is sound.
#![tactic(auto)]

ghost use Rattle.std.specs.Prelude.{◌≡◌, true, ◌↔◌};
ghost use Rattle.meaning.specs.Sound.{Sound};
ghost use Rattle.soundness.specs.Parts.{Table};

use sessions::{PARTIES, Session};

// Whether a store and its table are sound. Every array of 17 session records is a `Table`.
pub fn is_sound(store: &[u32], t: [Session; PARTIES]) -> bool
    ensures { Table t → ((result ≡ true) ↔ Sound store.now t) }
{
    sound::is_sound(store, t)
}
