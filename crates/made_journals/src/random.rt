// Random: a linear congruence of 32 bits, whose numbers are mixed before they are used.
ghost use Rattle.std.specs.Prelude.{◌≢◌, ◌<◌};

#[derive(Clone, Copy, Default)]
pub struct Random {
    state: u32,
}

impl Random {
    pub fn next(&mut self) -> u32 {
        let x = self.state.wrapping_mul(1664525).wrapping_add(1013904223);
        self.state = x;
        let y = (x ^ (x >> 16)).wrapping_mul(2246822519);
        y ^ (y >> 13)
    }

    // 0 to n - 1, or 0 where n is 0.
    pub fn below(&mut self, n: u32) -> u32
        ensures { n ≢ 0 → result < n }
    {
        self.next().checked_rem(n).unwrap_or(0)
    }

    // True k times of n.
    pub fn chance(&mut self, k: u32, n: u32) -> bool {
        self.below(n) < k
    }
}
