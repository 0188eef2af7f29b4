// Chain: the chain of free records. The header's free word is its first record, word 0 of a free record the next one, 0 ends it.
//
// It promises that taking a record and giving one back leave exactly the words that specs/Free says, that an empty chain answers 0
// and keeps every word, and that of a freed record only the next word is written. specs/Walk says when a chain can
// be walked. It rests on `words` for where the words lie.
#![tactic(auto)]

ghost use Rattle.std.specs.Prelude.{◌≡◌};
ghost use Rattle.words.specs.Store.{HasRecord};
ghost use Rattle.words.specs.Header.{header_word, free_place};
ghost use Rattle.chain.specs.Free.{Poppable, pop_free, push_free};

// Takes the first record off the chain: its number, or 0 where there is none. The answer is no Option: it is promised to be the
// header's word, and so it stands in the definitions of the callers.
pub fn pop_free(store: &mut [u32], m: usize) -> usize
    requires { Poppable store.old m }
    ensures { (result ≡ header_word store.old free_place) × (store.new ≡ pop_free store.old m) }
{
    let head = words::free(store) as usize;
    if head == 0 {
        return 0;
    }
    let next = words::word(store, m, head, 0);
    words::set_free(store, next);
    head
}

// Gives record i back: it is then the first of the chain.
pub fn push_free(store: &mut [u32], m: usize, i: usize)
    requires { HasRecord store.old m i }
    ensures { store.new ≡ push_free store.old m i }
{
    let next = words::free(store);
    let head = i as u32;
    words::set_word(store, m, i, 0, next);
    words::set_free(store, head);
}
