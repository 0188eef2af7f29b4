// Looks: store and model compared whole: free count, entries, holders and members of keys, the shape of the tree, the order of begins, who is asked.
// Side and model are only read here while the book is written, so the three stay parameters of their own.
use crate::book::{Book, Keys};
use crate::counts::What;
use naive::Model;
use schedules::side::{PARTIES, Side};

fn see_entry(s: &Side, a: &Model, b: &mut Book, e: u32) {
    let entry = s.entry(e);
    b.same(What::Value, entry.value, a.value(e));
    b.same(What::Share, entry.share, a.share(e));
    b.same(What::Exclusive, entry.exclusive, a.exclusive(e));
}

fn see_entries(s: &Side, a: &Model, b: &mut Book) {
    for e in 1..=b.round.size.entries {
        see_entry(s, a, b, e);
    }
}

// Who holds a key, stored or not, and its members. The highest word is no key.
fn see_key(s: &Side, a: &Model, b: &mut Book, k: u32) {
    if k == u32::MAX {
        return;
    }
    b.counts.keys.count();
    let key = s.key(k);
    b.same(What::Locate, key.locate, a.locate_holders(k));
    b.same(What::Update, key.update, a.update_holders(k));
    b.same(What::Members, key.members, a.members(k));
    b.same(What::IsStored, key.is_stored as u32, a.stored(k) as u32);
}

// Every key of a small range, and one more at each end.
fn see_range(s: &Side, a: &Model, b: &mut Book) {
    for k in 0..b.round.size.range.wrapping_add(2) {
        see_key(s, a, b, k);
    }
}

// Every stored key and its neighbours.
fn see_stored(s: &Side, a: &Model, b: &mut Book) {
    for d in s.descriptors() {
        let k = s.key_of(d);
        see_key(s, a, b, k.wrapping_sub(1));
        see_key(s, a, b, k);
        see_key(s, a, b, k.wrapping_add(1));
    }
}

fn see_keys(s: &Side, a: &Model, b: &mut Book) {
    if b.round.size.keys == Keys::Small {
        see_range(s, a, b);
    }
    see_stored(s, a, b);
    let any = b.random.word();
    see_key(s, a, b, any);
    see_key(s, a, b, u32::MAX - 1);
}

// The tree and the free count.
fn see_tree(s: &Side, a: &Model, b: &mut Book) {
    let stored = s.descriptors().count() as u32;
    b.same(What::Stored, stored, a.descriptors());
    b.same(What::Height, s.height(), a.height());
    b.same(What::Free, s.free().count() as u32, a.free());
    b.same(What::Nodes, s.nodes(), a.nodes());
    b.counts.height.raise(s.height());
    b.counts.descriptors.raise(stored);
}

// A party's number in the order of begins, and whether it is asked.
fn see_seat(s: &Side, a: &Model, b: &mut Book, p: u32) {
    b.same(What::Order, s.order(p), a.order(p));
    b.same(What::Mark, s.is_asked(p) as u32, a.asked(p) as u32);
}

pub fn see(s: &Side, a: &Model, b: &mut Book) {
    b.counts.views.count();
    for p in 0..PARTIES as u32 {
        see_seat(s, a, b, p);
    }
    see_tree(s, a, b);
    see_entries(s, a, b);
    see_keys(s, a, b);
}
