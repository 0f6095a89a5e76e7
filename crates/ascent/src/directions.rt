//! The direction of a step, in a metric that weighs each index by its slacks so far.

use crate::numbers::{clear, entry};
use crate::rounding::ONE;
use rail_base::NoMemory;
use rail_base::limits::MAX_MULTIPLIER;
use std::alloc::Global;

/// The size that no scaled multiplier goes past.
const MAX_SCALED: i128 = MAX_MULTIPLIER as i128 * ONE as i128;
/// What the slack of a step counts.
const SLACK_SCALE: i64 = 64;
/// The size that no slack of a day goes past.
const MAX_SLACK: i64 = 4_400;
/// How many sixteenths of the direction of a step go on into the next one.
const DEFLECTION: i64 = 14;
/// The same on long days.
const DEFLECTION_ON_LONG_DAYS: i64 = 15;

/// Directions by index, and what the slacks were on average.
#[derive(Drop)]
pub(crate) struct Directions {
    /// The direction of the last step.
    direction: Vec<i64>,
    /// The average size of the slacks.
    average: Vec<i64>,
    /// The index from which on a multiplier may be negative.
    free_from: usize,
    /// Whether the day is long.
    is_long: bool,
}

/// What a step along a deflected direction asks for.
#[derive(Clone, Copy)]
struct Deflected {
    /// The sum of the squares of its entries, each times the weight of its index.
    norm: i128,
    /// Whether the subgradient is 0: no slack would move a multiplier.
    is_zero: bool,
}

impl Directions {
    /// No direction, at so many indices. The error is want of memory.
    pub(crate) fn new(
        alloc: Global,
        indices: usize,
        free_from: usize,
        is_long: bool,
    ) -> Result<Directions, NoMemory> {
        Ok(Directions {
            direction: vec![in alloc; 0; indices]?,
            average: vec![in alloc; 0; indices]?,
            free_from,
            is_long,
        })
    }

    /// Forgets all directions and averages.
    pub(crate) fn clear(&mut self) {
        clear(&mut self.direction);
        clear(&mut self.average);
    }

    /// Deflects the direction by the slacks of an evaluation, and moves scaled multipliers along it so far that a value
    /// would rise by a gap, were it to go on as it began. Tells whether the subgradient is 0: no slack would move a
    /// multiplier.
    pub(crate) fn follow(&mut self, slacks: &[i64], gap: i128, scaled: &mut [i64]) -> bool {
        let deflected = self.deflect(scaled, slacks);
        self.step(deflected.norm, gap, scaled);
        deflected.is_zero
    }

    /// Deflects the direction by the slacks of an evaluation.
    fn deflect(&mut self, scaled: &[i64], slacks: &[i64]) -> Deflected {
        let mut deflected = Deflected {
            norm: 0,
            is_zero: true,
        };
        for index in 0..self.direction.len() {
            let is_held = index < self.free_from && entry(scaled, index) == 0;
            let is_zero = self.deflect_at(index, is_held, entry(slacks, index));
            deflected.is_zero = deflected.is_zero && is_zero;
            let direction = i128::from(entry(&self.direction, index));
            let square = direction.saturating_mul(direction);
            deflected.norm = deflected
                .norm
                .saturating_add(square.saturating_mul(i128::from(self.weight(index))));
        }
        deflected
    }

    /// Deflects the direction at one index, and tells whether the subgradient is 0 there: it is the slack, but 0 where
    /// the slack is negative and the multiplier is held at 0.
    fn deflect_at(&mut self, index: usize, is_held: bool, slack: i64) -> bool {
        let slack = slack.clamp(-MAX_SLACK, MAX_SLACK);
        let subgradient = if is_held {
            slack.max(0).saturating_mul(SLACK_SCALE)
        } else {
            slack.saturating_mul(SLACK_SCALE)
        };
        if index < self.average.len() {
            let size = if subgradient < 0 {
                0i64.saturating_sub(subgradient)
            } else {
                subgradient
            };
            let average = self.average[index];
            self.average[index] = average.saturating_add(
                size.saturating_mul(16).saturating_sub(average) / 32,
            );
        }
        if index < self.direction.len() {
            let deflection = if self.is_long {
                DEFLECTION_ON_LONG_DAYS
            } else {
                DEFLECTION
            };
            let kept = self.direction[index].saturating_mul(deflection) / 16;
            let deflected = subgradient.saturating_add(kept);
            self.direction[index] = if is_held { deflected.max(0) } else { deflected };
        }
        subgradient == 0
    }

    /// The weight of an index.
    fn weight(&self, index: usize) -> i64 {
        let divisor = entry(&self.average, index).saturating_add(16);
        1_048_576i64.checked_div(divisor).unwrap_or(1).max(1)
    }

    /// Moves scaled multipliers along the direction so far that a value would rise by a gap, were it to go on as it
    /// began.
    fn step(&self, norm: i128, gap: i128, scaled: &mut [i64]) {
        let factor = gap.max(1).saturating_mul(i128::from(SLACK_SCALE));
        let norm = norm.max(1);
        for index in 0..self.direction.len() {
            let direction = self.direction[index];
            if direction != 0 && index < scaled.len() {
                let weighted = i128::from(direction).saturating_mul(i128::from(self.weight(index)));
                let change = factor
                    .saturating_mul(weighted)
                    .checked_div(norm)
                    .unwrap_or(0);
                let moved = change.saturating_add(i128::from(scaled[index]));
                let least = if index < self.free_from {
                    0
                } else {
                    -MAX_SCALED
                };
                scaled[index] = i64::try_from(moved.clamp(least, MAX_SCALED)).unwrap_or(0);
            }
        }
    }
}
