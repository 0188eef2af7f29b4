// Contents: a store in which no session is begun, compared with the logical model.
use crate::book::Book;
use crate::counts::What;
use schedules::side::Side;

fn see_values(s: &Side, b: &mut Book) {
    for e in 1..=b.round.size.entries {
        let right = b.round.content.value(e);
        b.same(What::LogicalValue, s.entry(e).value, right);
    }
}

// A key has the members in the store that the content gives it.
fn see_group(s: &Side, b: &mut Book, key: u32) {
    let right = b.round.content.members(key);
    b.same(What::LogicalMembers, s.key(key).members, right);
}

// Every stored key.
fn see_stored(s: &Side, b: &mut Book) {
    for d in s.descriptors() {
        see_group(s, b, s.key_of(d));
    }
}

// Every key of the content.
fn see_content(s: &Side, b: &mut Book) {
    let content = b.round.content;
    for m in content.memberships().iter().flatten() {
        see_group(s, b, m.key);
    }
}

// A store in which no session is begun.
pub fn see_all(s: &Side, b: &mut Book) {
    b.counts.contents.count();
    see_values(s, b);
    see_stored(s, b);
    see_content(s, b);
}
