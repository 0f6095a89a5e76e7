//! An ascent, step by step.

ghost use Rattle.std.specs.Prelude.{◌≡◌};

use crate::directions::Directions;
use crate::layout::Layout;
use crate::levels::{Level, rounded_up, scaled};
use crate::numbers::{clear, copy, put};
use crate::rounding::{ONE, put_whole};
use branch_tree::{BoundAnswer, Multipliers, Region, Relaxation, Slacks, Weight};
use rail_base::{Money, NoMemory};
use std::alloc::Global;
use timetable::Picks;

/// How many trips a day may have on which steps are to gain more, and forget their directions sooner.
const MAX_TRIPS_OF_SHORT_DAYS: u32 = 200;

/// How far the target lies over 0 and the best value where a ray is looked for.
const RAY_LEVEL: i128 = 1000;

/// What a step of an ascent came to.
#[derive(Clone, Copy, PartialEq, Eq)]
pub enum Step {
    /// Another one may follow.
    More,
    /// The subgradient is 0: the picks are a solution, whose cost is the value where that was taken with the cost.
    Met,
    /// No picks are near the region, or the region, the picks or an index of the multipliers are not the relaxation's.
    Empty,
}

/// Multipliers on their way up, with the best that were met.
#[derive(Drop)]
pub struct Ascent {
    layout: Layout,
    scaled: Vec<i64>,
    directions: Directions,
    level: Level,
    is_long: bool,
    last: Evaluation,
    best: Best,
}

/// The last evaluation of the bound.
#[derive(Drop)]
struct Evaluation {
    /// The whole multiplier of each index.
    whole: Vec<i64>,
    /// Those that are not 0.
    multipliers: Multipliers,
    /// The picks of the least priced value.
    picks: Picks,
    /// Their slacks.
    slacks: Slacks,
    /// The slack of each index, 0 where there is none.
    slack_at: Vec<i64>,
}

impl Evaluation {
    /// Room for an evaluation at so many indices, of so many trips. The error is want of memory.
    fn new(alloc: Global, indices: usize, trips: u32) -> Result<Evaluation, NoMemory> {
        Ok(Evaluation {
            whole: vec![in alloc; 0; indices]?,
            multipliers: Multipliers::new(alloc)?,
            picks: Picks::new(alloc, trips)?,
            slacks: Slacks::new(alloc)?,
            slack_at: vec![in alloc; 0; indices]?,
        })
    }

    /// Evaluates the bound at the whole multipliers, with cost or without, and its slacks; nothing where no picks are
    /// near the region, or something is not of the relaxation's size. The value is scaled.
    fn take<R: Relaxation>(
        &mut self,
        bounds: &mut R,
        region: &Region,
        weight: Weight,
    ) -> Option<i128>
        ensures same { R.problem bounds.new ≡ R.problem bounds.old }
    {
        fill(&mut self.multipliers, &self.whole);
        let value = bound_of(bounds, region, &self.multipliers, weight, &mut self.picks)?;
        if !put_slacks(bounds, &self.picks, &mut self.slacks) {
            return None;
        }
        spread(&self.slacks, &mut self.slack_at);
        Some(scaled(value.0))
    }
}

/// The best evaluation of the bound.
#[derive(Drop)]
struct Best {
    /// The value, scaled: nothing before the first evaluation.
    value: Option<i128>,
    /// The scaled multiplier of each index.
    scaled: Vec<i64>,
    /// The whole multipliers that are not 0.
    multipliers: Multipliers,
    /// The picks of the least priced value.
    picks: Picks,
}

impl Best {
    /// Room for an evaluation at so many indices, of so many trips. The error is want of memory.
    fn new(alloc: Global, indices: usize, trips: u32) -> Result<Best, NoMemory> {
        Ok(Best {
            value: None,
            scaled: vec![in alloc; 0; indices]?,
            multipliers: Multipliers::new(alloc)?,
            picks: Picks::new(alloc, trips)?,
        })
    }

    /// Takes over the last evaluation, at these scaled multipliers.
    fn keep(&mut self, value: i128, scaled: &[i64], last: &Evaluation) {
        self.value = Some(value);
        copy(&mut self.scaled, scaled);
        fill(&mut self.multipliers, &last.whole);
        if self.picks.len() == last.picks.len() {
            self.picks.copy_from(&last.picks);
        }
    }
}

impl Ascent {
    /// An ascent from no multipliers, on a day of so many trips. The error is want of memory.
    pub fn new(
        alloc: Global,
        layout: Layout,
        trips: u32,
        patience: u32,
    ) -> Result<Ascent, NoMemory> {
        let indices = layout.indices;
        let is_long = trips > MAX_TRIPS_OF_SHORT_DAYS;
        Ok(Ascent {
            scaled: vec![in alloc; 0; indices]?,
            directions: Directions::new(alloc, indices, layout.free_from, is_long)?,
            level: Level::new(patience),
            is_long,
            last: Evaluation::new(alloc, indices, trips)?,
            best: Best::new(alloc, indices, trips)?,
            layout,
        })
    }

    /// Begins anew from whole multipliers.
    pub fn restart(&mut self, multipliers: &Multipliers, patience: u32) {
        clear(&mut self.scaled);
        for entry in multipliers.entries() {
            let value = entry.value.saturating_mul(ONE);
            put(&mut self.scaled, entry.index as usize, value);
        }
        self.directions.clear();
        self.level = Level::new(patience);
        self.best.value = None;
    }

    /// One evaluation of the bound, and a step from there. The incumbent is what the best plan costs. The problem that
    /// is bounded stays what it is.
    pub fn step<R: Relaxation>(
        &mut self,
        bounds: &mut R,
        region: &Region,
        incumbent: Option<Money>,
    ) -> Step
        ensures same { R.problem bounds.new ≡ R.problem bounds.old }
    {
        let Some(value) = self.evaluate(bounds, region, Weight::Cost) else {
            return Step::Empty;
        };
        let incumbent = scaled_cost(incumbent);
        let before = self.best.value;
        if before.is_none() {
            self.level.begin(value, incumbent);
        }
        let enough = self.level.enough(self.is_long);
        self.level.count(is_over(value, before, enough));
        if is_over(value, before, 0) {
            self.best.keep(value, &self.scaled, &self.last);
        }
        self.advance(value, incumbent)
    }

    /// Begins anew from the best multipliers, to look for a ray.
    pub fn restart_for_ray(&mut self) {
        copy(&mut self.scaled, &self.best.scaled);
        self.directions.clear();
        self.best.value = None;
    }

    /// One evaluation of the bound without cost, and a step from there. Where the best value since `restart_for_ray` is
    /// positive, the best multipliers are a ray: no solution lies in the region. The problem that is bounded stays what
    /// it is.
    pub fn step_to_ray<R: Relaxation>(&mut self, bounds: &mut R, region: &Region) -> Step
        ensures same { R.problem bounds.new ≡ R.problem bounds.old }
    {
        let Some(value) = self.evaluate(bounds, region, Weight::NoCost) else {
            return Step::Empty;
        };
        if is_over(value, self.best.value, 0) {
            self.best.keep(value, &self.scaled, &self.last);
        }
        let best = self.best.value.unwrap_or(value);
        // Without cost no value is the greatest where one is positive, so that any target above 0 serves.
        let target = best.max(0).saturating_add(scaled(RAY_LEVEL));
        let gap = target.saturating_sub(value);
        if self
            .directions
            .follow(&self.last.slack_at, gap, &mut self.scaled)
        {
            Step::Met
        } else {
            Step::More
        }
    }

    /// Rounds the scaled multipliers, and evaluates the bound there: see `Evaluation::take`.
    fn evaluate<R: Relaxation>(
        &mut self,
        bounds: &mut R,
        region: &Region,
        weight: Weight,
    ) -> Option<i128>
        ensures same { R.problem bounds.new ≡ R.problem bounds.old }
    {
        put_whole(&self.layout, &self.scaled, &mut self.last.whole);
        self.last.take(bounds, region, weight)
    }

    /// Moves on from the last evaluation, or from the best one where the steps have become stale.
    fn advance(&mut self, value: i128, incumbent: Option<i128>) -> Step {
        let best = self.best.value.unwrap_or(value);
        let mut from = value;
        let has_returned = self.level.is_stale();
        if has_returned {
            self.level.lower(best, incumbent);
            copy(&mut self.scaled, &self.best.scaled);
            from = best;
        }
        let gap = self.level.target(best, incumbent).saturating_sub(from);
        let is_zero = self
            .directions
            .follow(&self.last.slack_at, gap, &mut self.scaled);
        // After a return the slacks are not those of the multipliers that are stepped from.
        if is_zero && !has_returned {
            Step::Met
        } else {
            Step::More
        }
    }

    /// The multipliers of the last evaluation.
    pub fn multipliers(&self) -> &Multipliers {
        &self.last.multipliers
    }

    /// The multipliers of the best evaluation.
    pub fn best_multipliers(&self) -> &Multipliers {
        &self.best.multipliers
    }

    /// The picks of the last evaluation.
    pub fn picks(&self) -> &Picks {
        &self.last.picks
    }

    /// The picks of the best evaluation.
    pub fn best_picks(&self) -> &Picks {
        &self.best.picks
    }

    /// The least whole cost that the best value allows: nothing before the first evaluation.
    pub fn bound(&self) -> Option<Money> {
        let best = self.best.value?;
        Some(Money(rounded_up(best)))
    }
}

/// What a plan costs, scaled.
fn scaled_cost(cost: Option<Money>) -> Option<i128> {
    Some(scaled(cost?.0))
}

/// Whether a value is over the best one, where there is one, by more than so much.
fn is_over(value: i128, best: Option<i128>, enough: i128) -> bool {
    match best {
        Some(best) => value > best.saturating_add(enough),
        None => true,
    }
}

/// Puts the values that are not 0 in place of what multipliers held, as far as there is room.
fn fill(multipliers: &mut Multipliers, values: &[i64]) {
    multipliers.clear();
    let mut index: u32 = 0;
    for place in 0..values.len() {
        let _is_put = multipliers.put(index, values[place]).is_ok();
        index = index.saturating_add(1);
    }
}

/// The least priced value in a region, with cost or without, and its picks; nothing where no picks are near the region,
/// or something is not of the relaxation's size.
fn bound_of<R: Relaxation>(
    bounds: &mut R,
    region: &Region,
    multipliers: &Multipliers,
    weight: Weight,
    picks: &mut Picks,
) -> Option<Money>
    ensures same { R.problem bounds.new ≡ R.problem bounds.old }
{
    let fit = multipliers.fits(bounds.indices(), bounds.free_from());
    let trips = bounds.trips();
    if !fit || region.trips() != trips || picks.len() != trips {
        return None;
    }
    match bounds.bound(region, multipliers, weight, picks) {
        BoundAnswer::Value(value) => Some(value),
        BoundAnswer::Empty => None,
    }
}

/// Puts the slacks of picks, where they follow.
fn put_slacks<R: Relaxation>(bounds: &mut R, picks: &Picks, slacks: &mut Slacks) -> bool
    ensures same { R.problem bounds.new ≡ R.problem bounds.old }
{
    if picks.len() != bounds.trips() || !bounds.follows(picks) {
        return false;
    }
    bounds.slacks(picks, slacks);
    true
}

/// Puts the slack of each index, 0 where there is none.
fn spread(slacks: &Slacks, slack_at: &mut [i64]) {
    clear(slack_at);
    for place in 0..slacks.len() {
        let slack = slacks.at(place);
        put(slack_at, slack.index as usize, slack.value);
    }
}
