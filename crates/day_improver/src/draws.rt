//! Draws: numbers that are the same in each run.

/// Where the draws begin.
const FIRST_STATE: u32 = 12_345;

/// A sequence of draws.
#[derive(Drop)]
pub(crate) struct Draws {
    state: u32,
}

impl Draws {
    /// The sequence from its begin.
    pub(crate) fn new() -> Draws {
        Draws { state: FIRST_STATE }
    }

    /// A number below another one, and 0 where that is 0.
    pub(crate) fn below(&mut self, most: u32) -> u32 {
        self.state = self.state.wrapping_mul(1_103_515_245).wrapping_add(12_345);
        (self.state >> 8).checked_rem(most).unwrap_or(0)
    }

    /// A number of 40 drawn bits below another one, and 0 where that is 0.
    pub(crate) fn below_wide(&mut self, most: u64) -> u64 {
        let high = u64::from(self.below(1 << 20));
        let low = u64::from(self.below(1 << 20));
        high.wrapping_mul(1 << 20)
            .wrapping_add(low)
            .checked_rem(most)
            .unwrap_or(0)
    }
}
