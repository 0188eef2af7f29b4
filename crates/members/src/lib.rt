// Members: what requests do to descriptors and to the members of a group, on the words of a store.
//
// A descriptor is pinned and held; a record becomes the first member of a group, or goes out of it by its neighbours. It promises that
// the store each function leaves EQUALS a definition of specs/Members. What must hold before is one record. Nothing here says what a
// lock or a group means. It rests on words for where words lie, on groups (and kinds) for the records, on locks for holders.
#![tactic(auto)]

ghost use Rattle.std.specs.Prelude.{◌≡◌};
ghost use Rattle.members.specs.Members.{Pinnable, Pinned, Holdable, Linkable, Nextable, Puttable, Takeable, pin_at, unpin_at, locate_at, pass_at, update_at, member_or, put_before, put_next, put_member, take_member};

use groups::{Descriptor, Membership};
use kinds::Record;

// ---- pins and holders of descriptor d

// A request pins it.
#[tactic(auto, unfolding(crate::specs::Members::pin_at))]
pub fn pin_at(store: &mut [u32], m: usize, d: usize)
    requires { Pinnable store.old m d }
    ensures { store.new ≡ pin_at store.old m d }
{
    let pins = groups::descriptor_pins(store, m, d);
    groups::set_pins(store, m, d, pins + 1);
}

// A request lets go of it.
#[tactic(auto, unfolding(crate::specs::Members::unpin_at))]
pub fn unpin_at(store: &mut [u32], m: usize, d: usize)
    requires { Pinned store.old m d }
    ensures { store.new ≡ unpin_at store.old m d }
{
    let pins = groups::descriptor_pins(store, m, d);
    groups::set_pins(store, m, d, pins - 1);
}

// The three holds are written out: each sets other fields of the descriptor, and its clause names its own definition (locate_at, pass_at, update_at).

// Session p comes to hold its key in locate mode.
#[tactic(auto, unfolding(crate::specs::Members::locate_at))]
pub fn hold_locate(store: &mut [u32], m: usize, d: usize, p: u32)
    requires { Holdable store.old m d p }
    ensures { store.new ≡ locate_at store.old m d p }
{
    let v = Descriptor::load(store, m, d);
    let locate = locks::with_session(v.locate, p);
    v.grant_locate(locate).write(store, m, d);
}

// Session p comes to hold its key in locate mode, and the gap behind it.
#[tactic(auto, unfolding(crate::specs::Members::pass_at, groups::specs::Descriptor::with_holders))]
pub fn hold_pass(store: &mut [u32], m: usize, d: usize, p: u32)
    requires { Holdable store.old m d p }
    ensures { store.new ≡ pass_at store.old m d p }
{
    let v = Descriptor::load(store, m, d);
    let locate = locks::with_session(v.locate, p);
    let gap = locks::with_session(v.gap, p);
    v.grant_locate(locate).grant_gap(gap).write(store, m, d);
}

// Session p comes to hold its key in update mode.
#[tactic(auto, unfolding(crate::specs::Members::update_at))]
pub fn hold_update(store: &mut [u32], m: usize, d: usize, p: u32)
    requires { Holdable store.old m d p }
    ensures { store.new ≡ update_at store.old m d p }
{
    let v = Descriptor::load(store, m, d);
    let update = locks::with_session(v.update, p);
    v.grant_update(update).write(store, m, d);
}

// ---- the members of descriptor d's group

// Membership i, if there is one; else one of zeros, and no None: the definition `member_or` says so, and what follows from it goes by it.
#[tactic(auto, unfolding(crate::specs::Members::member_or, crate::specs::Members::no_member))]
fn member_or(store: &[u32], m: usize, i: usize) -> Membership
    requires { Linkable store.now m i }
    ensures { result ≡ member_or store.now m i }
{
    if i == 0 {
        return Membership {
            next: 0,
            before: 0,
            entry: 0,
        };
    }
    Membership::load(store, m, i)
}

// Membership i, which was b, gets another member before it, if there is a membership i.
#[tactic(auto, unfolding(crate::specs::Members::put_before))]
fn set_before(store: &mut [u32], m: usize, i: usize, b: Membership, before: u32)
    requires { Linkable store.old m i }
    ensures { store.new ≡ put_before store.old m i b before }
{
    if i == 0 {
        return;
    }
    b.with_member_before(before).write(store, m, i);
}

// What follows membership b becomes n; where b is 0, that is the descriptor's first member.
#[tactic(auto, unfolding(crate::specs::Members::put_next))]
fn set_next(store: &mut [u32], m: usize, d: usize, b: usize, n: u32)
    requires { Nextable store.old m d b }
    ensures { store.new ≡ put_next store.old m d b n }
{
    if b == 0 {
        let v = Descriptor::load(store, m, d);
        v.with_first_member(n).write(store, m, d);
        return;
    }
    let v = Membership::load(store, m, b);
    v.with_next_member(n).write(store, m, b);
}

// Record i becomes the first member, for entry e.
pub fn put_member(store: &mut [u32], m: usize, d: usize, i: usize, e: u32)
    requires { Puttable store.old m d i }
    ensures { store.new ≡ put_member store.old m d i e }
{
    let v = Descriptor::load(store, m, d);
    let first = v.first as usize;
    let after = member_or(store, m, first);
    let own = i as u32;
    let b = Membership {
        next: v.first,
        before: 0,
        entry: e,
    };
    b.write(store, m, i);
    set_before(store, m, first, after, own);
    v.with_first_member(own).write(store, m, d);
}

// Record i goes out: its neighbours pass it by, and the record itself stays as it is.
pub fn take_member(store: &mut [u32], m: usize, d: usize, i: usize)
    requires { Takeable store.old m d i }
    ensures { store.new ≡ take_member store.old m d i }
{
    let b = Membership::load(store, m, i);
    let before = b.before as usize;
    let next = b.next as usize;
    let after = member_or(store, m, next);
    set_next(store, m, d, before, b.next);
    set_before(store, m, next, after, b.before);
}
