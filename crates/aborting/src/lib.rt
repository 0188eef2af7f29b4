// Aborting: what the accepted call abort does to the words of a store, whole.
//
// The request in hand ends, if there is one; the session's undo records are undone, newest first; the session leaves every entry and every
// descriptor. It promises that the words left EQUAL a definition of specs/Words, and (specs/Abort) that from words which hold a layout of a
// sound state they hold one that means the machine's `aborts`, and that what the code asks is there. It rests on finishing for the request,
// on undo_log and undoing for the undo records, on leaving for the rest, on layout for what words hold.
#![tactic(auto)]

ghost use Rattle.std.specs.Prelude.{◌≡◌};
ghost use Rattle.aborting.specs.Words.{hand_ended, HandReady, abort_words, AbortReady};

use sessions::{Session, Stage};

// The request in hand ends, if there is one.
pub fn end_hand(store: &mut [u32], m: usize, x: Session)
    requires { HandReady store.old m x }
    ensures { store.new ≡ hand_ended store.old m x }
{
    if x.stage == Stage::Idle as u32 {
        return;
    }
    finishing::end_request(store, m, x);
}

// Session p, whose record is x, aborts.
pub fn abort_words(store: &mut [u32], m: usize, r: usize, p: u32, x: Session)
    requires { AbortReady store.old m r p x }
    ensures { store.new ≡ abort_words store.old m r p x }
{
    end_hand(store, m, x);
    let undo = x.undo as usize;
    undo_log::undo_all(store, m, r, undo);
    leaving::leave_all(store, m, r, p);
}
