// Tables: a lent session table. Its 17 records are loaded by value, one is stored back, or all are.
//
// A lent table is a slice of session records. `load` tests that there are 17; each other function asks for it, and its caller tests it. What is loaded is the
// records as they stand; what is stored is what was passed, and no other record changes. It rests on sessions alone.
#![tactic(auto)]

ghost use Rattle.std.specs.Prelude.{◌≡◌, None, IfSome, length, set};
ghost use Rattle.sessions.specs.Sessions.{parties};

use sessions::{PARTIES, Session};

// ---- the lent table

// The 17 records of a lent table, by value. Each is copied once.
pub fn load_all(table: &[Session]) -> [Session; PARTIES]
    requires { length table.now ≡ parties }
    ensures { result ≡ table.now }
{
    let mut loaded = [Session::default(); PARTIES];
    loaded.copy_from_slice(table);
    loaded
}

// The same where the caller has not tested it: none if there are not 17.
pub fn load(table: &[Session]) -> Option<[Session; PARTIES]>
    ensures loaded { IfSome result (λ t. (t ≡ table.now) × (length table.now ≡ parties)) }
    ensures wrong { result ≡ None → ¬ (length table.now ≡ parties) }
{
    if table.len() != PARTIES {
        return None;
    }
    Some(load_all(table))
}

// The 17 records go into a lent table.
pub fn save_all(table: &mut [Session], t: [Session; PARTIES])
    requires { length table.old ≡ parties }
    ensures { table.new ≡ t }
{
    table.copy_from_slice(&t);
}

// One record goes into a lent table: party p's. A number that is no party's stores nothing.
pub fn store_session(table: &mut [Session], p: u32, x: Session)
    requires { length table.old ≡ parties }
    ensures { table.new ≡ set table.old p x }
{
    let at = p as usize;
    if at < PARTIES {
        table[at] = x;
    }
}
