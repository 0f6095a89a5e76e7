//! The level by which the target of an ascent lies over its best value.

use crate::rounding::{ONE, SHIFT};

/// How far the target lies over the best value, and how long no step has gained enough.
#[derive(Clone, Copy)]
pub(crate) struct Level {
    /// By how much the target is over the best value, scaled.
    pub height: i128,
    /// How many steps in turn have gained too little.
    pub stale: u32,
    /// How many such steps may come in turn.
    pub patience: u32,
}

impl Level {
    /// The level before the first step.
    pub(crate) fn new(patience: u32) -> Level {
        Level {
            height: 0,
            stale: 0,
            patience,
        }
    }

    /// Sets the level of the first step: from the gap to the best plan, or from the value where there is none.
    pub(crate) fn begin(&mut self, value: i128, incumbent: Option<i128>) {
        let height = match incumbent {
            Some(cost) => cost.saturating_sub(value) / 2,
            None => size_of(value) / 3,
        };
        self.height = height.max(i128::from(ONE));
    }

    /// By how much a step gains enough, on a long day or on a short one.
    pub(crate) fn enough(&self, is_long: bool) -> i128 {
        if is_long {
            self.height / 16
        } else {
            self.height / 8
        }
    }

    /// Counts a step that gained enough or did not.
    pub(crate) fn count(&mut self, gained: bool) {
        if gained {
            self.stale = 0;
        } else {
            self.stale = self.stale.saturating_add(1);
        }
    }

    /// Whether too many steps in turn have gained too little.
    pub(crate) fn is_stale(&self) -> bool {
        self.stale > self.patience
    }

    /// Halves the level, and sets it anew where it has become too small: from the gap to the best plan, or from the
    /// value where there is none.
    pub(crate) fn lower(&mut self, best: i128, incumbent: Option<i128>) {
        self.stale = 0;
        self.height = (self.height / 2).max(1);
        let size = size_of(best);
        if self.height < size >> 16 {
            self.height = match incumbent {
                Some(cost) => (cost.saturating_sub(best) / 2).max(1),
                None => (size / 16).max(1),
            };
        }
    }

    /// The target over a best value: no more than the best plan costs.
    pub(crate) fn target(&self, best: i128, incumbent: Option<i128>) -> i128 {
        let target = best.saturating_add(self.height);
        match incumbent {
            Some(cost) => target.min(cost),
            None => target,
        }
    }
}

/// A whole amount as a scaled one.
pub(crate) fn scaled(value: i128) -> i128 {
    value.saturating_mul(i128::from(ONE))
}

/// A scaled amount as a whole one, rounded up.
pub(crate) fn rounded_up(value: i128) -> i128 {
    value.saturating_add(i128::from(ONE) - 1) >> SHIFT
}

/// The size of an amount, whatever its sign.
fn size_of(value: i128) -> i128 {
    if value < 0 {
        0i128.saturating_sub(value)
    } else {
        value
    }
}
