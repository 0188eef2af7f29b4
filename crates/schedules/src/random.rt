// Random: Marsaglia's xorshift of 32 bits.

fn mixed(x: u32) -> u32 {
    let a = x ^ (x << 13);
    let b = a ^ (a >> 17);
    b ^ (b << 5)
}

// A number with one more word mixed in.
pub fn with_word(x: u32, w: u32) -> u32 {
    mixed(mixed(x.wrapping_add(2654435769)).wrapping_add(w))
}

// The random numbers of a run, each drawn in turn.
#[derive(Clone, Copy)]
pub struct Random {
    state: u32,
}

impl Random {
    pub fn new(seed: u32) -> Self {
        Random { state: seed }
    }

    // Any word.
    pub fn word(&mut self) -> u32 {
        self.state = mixed(self.state);
        self.state
    }

    // 0 to n - 1, or 0 where n is 0.
    pub fn below(&mut self, n: u32) -> u32 {
        (self.word() >> 5).checked_rem(n).unwrap_or(0)
    }

    // True k times of n.
    pub fn chance(&mut self, k: u32, n: u32) -> bool {
        self.below(n) < k
    }
}
