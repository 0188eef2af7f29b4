// Root entry: the first step of a descent.
//
// A descent enters at the root. A root whose lone son is a node is dropped, and that son entered; a session splits a full node under a
// new root, and enters the half of its key. The step waits while another party has the latch of the root or of the node that is entered,
// and is refused 11, which ends the request, where the split finds too few records: a dropped root's counts.
//
// It promises that the words left, the party's session record and the answer EQUAL a definition of specs/RootEntry, and (specs/Enter)
// that from words which hold a layout of a sound state this is the machine's step; specs/Ready says that such words have what the code
// asks for. It rests on the crates that read and write nodes, on `finishing` for the end of a request, on `walking` for the effects.
#![tactic(auto)]

ghost use Rattle.std.specs.Prelude.{◌≡◌, ◌≤◌};
ghost use Rattle.machine.specs.Holders.{width};
ghost use Rattle.words.specs.Store.{HasRecord};
ghost use Rattle.words.specs.Header.{header_word, root_place};
ghost use Rattle.chain.specs.Free.{Poppable};
ghost use Rattle.outcomes.specs.Said.{moved};
ghost use Rattle.splits.specs.Splits.{CanSplitRoot};
ghost use Rattle.root_entry.specs.RootEntry.{drops_root, entered_node, dropped_words, root_in_way, splits_root, has_two, enter_whole, enter_halves, enter_full, enter_free, enter_step_of, RootReady, FreeReady, EnterReady};

use outcomes::{Answer, Moved, Refusal};
use sessions::Session;

// ---- what is entered

// Whether the root's lone son is a node.
fn drops_root(store: &[u32], m: usize) -> bool
    requires { HasRecord store.now m (header_word store.now root_place) }
    ensures { result ≡ drops_root store.now m }
{
    let root = words::root(store) as usize;
    let height = words::height(store);
    2 <= height && nodes::node_count(store, m, root) == 1
}

// The root, or its lone son.
fn entered_node(store: &[u32], m: usize) -> usize
    requires { HasRecord store.now m (header_word store.now root_place) }
    ensures { result ≡ entered_node store.now m }
{
    let root = words::root(store) as usize;
    if drops_root(store, m) {
        nodes::node_son(store, m, root, 0) as usize
    } else {
        root
    }
}

// The root gives way to its lone son, where that is a node.
fn drop_lone(store: &mut [u32], m: usize)
    requires { HasRecord store.old m (header_word store.old root_place) }
    ensures { store.new ≡ dropped_words store.old m }
{
    if drops_root(store, m) {
        splits::drop_root(store, m);
    }
}

// ---- the tests

// The party and 1 whose latch is in the way, 0 for none.
fn root_in_way(store: &[u32], m: usize, p: u32) -> u32
    requires { RootReady store.now m p }
    ensures { result ≡ root_in_way store.now m p }
{
    let root = words::root(store) as usize;
    let node = entered_node(store, m);
    let first = nodes::node_latch(store, m, root);
    let second = nodes::node_latch(store, m, node);
    descents::first_in_way(p, first, second)
}

// A session splits a full node; the housekeeper does not.
fn splits_root(store: &[u32], m: usize, p: u32) -> bool
    requires { RootReady store.now m p }
    ensures { result ≡ splits_root store.now m p }
{
    p != 0 && nodes::node_count(store, m, entered_node(store, m)) == 8
}

// Two records are free, or come to be by the drop.
fn has_two(store: &[u32], m: usize) -> bool
    requires { HasRecord store.now m (header_word store.now root_place) × Poppable store.now m }
    ensures { result ≡ has_two store.now m }
{
    if drops_root(store, m) {
        descents::has_free(store, m, 1)
    } else {
        descents::has_free(store, m, 2)
    }
}

// ---- the effects

// The root gets the latch.
fn enter_whole(store: &mut [u32], m: usize, p: u32, x: Session) -> Moved
    requires { HasRecord store.old m (header_word store.old root_place) × (p ≤ width) }
    ensures { (store.new ≡ (enter_whole store.old m p x).words) × (result ≡ moved (enter_whole store.old m p x)) }
{
    let root = words::root(store);
    let height = words::height(store);
    nodes::set_latch(store, m, root as usize, p + 1);
    Moved {
        answer: Answer::More,
        session: walking::stand(x, root, height),
    }
}

// The root is split, and the half of the key gets the latch.
fn enter_halves(store: &mut [u32], m: usize, p: u32, x: Session) -> Moved
    requires { CanSplitRoot store.old m × (p ≤ width) }
    ensures { (store.new ≡ (enter_halves store.old m p x).words) × (result ≡ moved (enter_halves store.old m p x)) }
{
    let height = words::height(store);
    let half = splits::split_root(store, m, x.target, p + 1);
    Moved {
        answer: Answer::More,
        session: walking::stand(x, half as u32, height),
    }
}

// ---- the step

fn enter_full(store: &mut [u32], m: usize, p: u32, x: Session) -> Moved
    requires { FreeReady store.old m p x }
    ensures { (store.new ≡ (enter_full store.old m p x).words) × (result ≡ moved (enter_full store.old m p x)) }
{
    let enough = has_two(store, m);
    if !enough {
        return finishing::refuse_request(store, m, x, Refusal::Full, 0);
    }
    drop_lone(store, m);
    enter_halves(store, m, p, x)
}

fn enter_free(store: &mut [u32], m: usize, p: u32, x: Session) -> Moved
    requires { FreeReady store.old m p x }
    ensures { (store.new ≡ (enter_free store.old m p x).words) × (result ≡ moved (enter_free store.old m p x)) }
{
    let splits = splits_root(store, m, p);
    if splits {
        return enter_full(store, m, p, x);
    }
    drop_lone(store, m);
    enter_whole(store, m, p, x)
}

pub fn enter_step(store: &mut [u32], m: usize, p: u32, x: Session) -> Moved
    requires { EnterReady store.old m p x }
    ensures { (store.new ≡ (enter_step_of store.old m p x).words) × (result ≡ moved (enter_step_of store.old m p x)) }
{
    let q = root_in_way(store, m, p);
    if q != 0 {
        return Moved {
            answer: Answer::Wait(q - 1),
            session: x,
        };
    }
    enter_free(store, m, p, x)
}
