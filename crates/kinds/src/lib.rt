// Kinds of record: what every kind shares, once. A kind is a pair of definitions, `encode` to 20 words and `decode` back.
//
// specs/Kind.antt promises, for any such pair: a record that is written reads back as what was written, every other record
// reads as before in whatever kind, and the store keeps its length. A type whose values are records implements `Record`: it says how it
// is turned into 20 words and back, and is then loaded from a store and written to it. It rests on the crate words.
#![tactic(auto)]

ghost use Rattle.std.specs.Prelude.{◌≡◌, length};
ghost use Rattle.words.specs.Store.{HasRecord};
ghost use Rattle.kinds.specs.Kind.{Kind, read_at, write_at};

// A type of which each value can be a record of a store.
pub trait Record: Sized {
    // How a value is written as 20 words, and how any 20 words read.
    ghost kind: { Kind Self };

    // The values of which the words say all.
    ghost is_said: { Self → Type 0 };

    // The value as the words of its record; the unused ones are 0.
    fn to_words(self) -> [u32; 20]
        ensures { result ≡ kind.encode self };

    // The value that a record's words say, each word read where it lies.
    fn from_words(part: &[u32]) -> Self
        requires { length part.now ≡ 20 }
        ensures { result ≡ kind.decode part.now };

    // What is written reads as the same value.
    ghost reads_back: { (x : Self) → is_said x → kind.decode (kind.encode x) ≡ x };

    // Record i of a store of m entries.
    final fn load(store: &[u32], m: usize, i: usize) -> Self
        requires { HasRecord store.now m i }
        ensures { result ≡ read_at kind store.now m i }
    {
        Self::from_words(words::record_words(store, m, i))
    }

    // Record i becomes this value.
    final fn write(self, store: &mut [u32], m: usize, i: usize)
        requires { HasRecord store.old m i }
        ensures { store.new ≡ write_at kind store.old m i self }
    {
        words::set_record_words(store, m, i, self.to_words());
    }
}
