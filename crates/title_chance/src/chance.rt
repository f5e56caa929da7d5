//! Numbers that are the same in every run.

/// A generator of numbers: the upper half of a linear congruence modulo 2^64.
#[derive(Clone, Copy)]
pub struct Chance {
    state: u64,
}

impl Chance {
    /// The generator whose numbers follow this seed.
    pub fn new(seed: u64) -> Chance {
        Chance { state: seed }
    }

    fn next(&mut self) -> u32 {
        let product = self.state.wrapping_mul(6_364_136_223_846_793_005);
        self.state = product.wrapping_add(1_442_695_040_888_963_407);
        u32::try_from(self.state >> 32).unwrap_or(0)
    }

    /// A number below another; 0 where that is 0.
    pub fn below(&mut self, bound: u32) -> u32 {
        self.next().checked_rem(bound).unwrap_or(0)
    }

    /// A number from 1 to another, and 1 where that is 0.
    pub fn up_to(&mut self, most: u8) -> u8 {
        let below = u8::try_from(self.below(u32::from(most))).unwrap_or(0);
        below.saturating_add(1)
    }

    /// Heads or tails.
    pub fn flip(&mut self) -> bool {
        self.below(2) == 0
    }
}
