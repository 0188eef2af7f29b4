// Finishing: a request in hand ends, with its latch and its pins (document 01: its short lock and seizures).
//
// It promises that the words left EQUAL a definition of specs/Finishing, and (specs/Ended) that from words which hold a layout of a sound state they hold
// one that means the machine's `ended`: so a step that is refused 11 or 12, and one that is done, end the request as the machine does. It rests on the crates
// that write nodes and descriptors, on `outcomes` for what a refused step answers, on `layout` for what words hold.
#![tactic(auto)]

ghost use Rattle.std.specs.Prelude.{◌≡◌};
ghost use Rattle.endings.specs.Table.{idled};
ghost use Rattle.outcomes.specs.Refused.{number};
ghost use Rattle.outcomes.specs.declared.Answer.TheVariants as A;
ghost use Rattle.finishing.specs.Finishing.{has_pinned, LatchEnds, LowEnds, HighEnds, Endable, end_latch, end_low, end_high, end_request};

use outcomes::{Answer, Moved, Refusal};
use sessions::{Code, Session, Stage};

// The latch of a descent that stands at a node.
fn end_latch(store: &mut [u32], m: usize, x: Session)
    requires { LatchEnds store.old m x }
    ensures { store.new ≡ end_latch store.old m x }
{
    if x.stage == Stage::AtNode as u32 {
        nodes::set_latch(store, m, x.at as usize, 0);
    }
}

// Whether the request has pinned the descriptor of first.
#[tactic(auto, unfolding(crate::specs::Finishing::has_pinned))]
fn has_pinned(x: Session) -> bool
    ensures { result ≡ has_pinned x }
{
    x.stage == Stage::Change as u32
        || x.stage == Stage::Take as u32
        || x.code == Code::Locate as u32 && x.target != x.first
}

fn end_low(store: &mut [u32], m: usize, x: Session)
    requires { LowEnds store.old m x }
    ensures { store.new ≡ end_low store.old m x }
{
    if has_pinned(x) {
        members::unpin_at(store, m, x.low as usize);
    }
}

#[tactic(auto, unfolding(crate::specs::Finishing::end_high))]
fn end_high(store: &mut [u32], m: usize, x: Session)
    requires { HighEnds store.old m x }
    ensures { store.new ≡ end_high store.old m x }
{
    if x.stage == Stage::Take as u32 && x.first != x.second {
        members::unpin_at(store, m, x.high as usize);
    }
}

// The request in hand of a session record ends: the record with none.
pub fn end_request(store: &mut [u32], m: usize, x: Session) -> Session
    requires { Endable store.old m x }
    ensures { (store.new ≡ end_request store.old m x) × (result ≡ idled x) }
{
    end_latch(store, m, x);
    end_low(store, m, x);
    end_high(store, m, x);
    endings::idle_session(x)
}

// The request in hand ends because it is refused, with a number beside the refusal's.
pub fn refuse_request(
    store: &mut [u32],
    m: usize,
    x: Session,
    refusal: Refusal,
    beside: u32,
) -> Moved
    requires { Endable store.old m x }
    ensures { (store.new ≡ end_request store.old m x) × (result ≡ record { answer = A.Refused (number refusal) beside; session = idled x }) }
{
    let idle = end_request(store, m, x);
    Moved {
        answer: Answer::Refused(u32::from(refusal), beside), // why
        session: idle,
    }
}
