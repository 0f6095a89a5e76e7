//! What holds of the relaxation of every day.
//!
//! A law is the contract of a function that does nothing.

ghost use Rattle.price_bound.specs.BrokenLaws.{BrokenAtFirstFault, BrokenAtFirstMissed, BrokenPicksAreClosed};
ghost use Rattle.price_bound.specs.BrokenLaws.{ChangedBrokenPicksAreClosed, PartsAreMissedOrNot, SolvedWithoutFault};
ghost use Rattle.price_bound.specs.ChangedDays.{ChangedDaysAreRelaxations, UnchangedDaysAreDays};
ghost use Rattle.price_bound.specs.DayMeanings.{DaysAreRelaxations};
ghost use Rattle.price_bound.specs.PlanBounds.{ChangedPlansArePricedLow, ChangedSolutionsBoundPlans};
ghost use Rattle.price_bound.specs.PlanBounds.{NoChangedSolutionsNoPlans, NoSolutionsNoPlans, PlansArePricedLow};
ghost use Rattle.price_bound.specs.PlanBounds.{PlansHavePicks, PlansLieInRoots, SolutionsBoundPlans};
ghost use Rattle.price_bound.specs.Sizes.{AreSizeLimits, ChangedSlacksAreSmall, ChangedValuesAreSmall, SlacksAreSmall};
ghost use Rattle.price_bound.specs.Sizes.{ValuesAreSmall};

/// Every accepted day is a relaxation of its solutions, which are the picks that are the types of a plan that runs:
/// what is said of a solution's slacks, of near picks and of picks that are no solution holds of the day.
pub fn days_are_relaxations()
    ensures law { DaysAreRelaxations }
{}

/// Under any changes an accepted day is a relaxation of its solutions; under none it means what the day does.
pub fn changed_days_are_relaxations()
    ensures law { ChangedDaysAreRelaxations }
    ensures unchanged { UnchangedDaysAreDays }
{}

/// What holds of all solutions in the region of a day holds of all plans of named units that run: they cost at least so
/// much, or there is none.
pub fn solutions_stand_for_plans()
    ensures bound { SolutionsBoundPlans }
    ensures none { NoSolutionsNoPlans }
{}

/// Every plan that runs has picks, and weak duality: under multipliers that fit these are priced at the cost of the
/// plan or lower.
pub fn plans_are_priced_low()
    ensures picks { PlansHavePicks }
    ensures law { PlansArePricedLow }
{}

/// What holds of all solutions in a region under changes holds of all plans of named units that run by picks in it:
/// they cost at least so much, with what the changes add for their picks, or there is none. In the region of an
/// accepted day lie the picks of every plan that runs.
pub fn changed_solutions_stand_for_plans()
    ensures bound { ChangedSolutionsBoundPlans }
    ensures none { NoChangedSolutionsNoPlans }
    ensures root { PlansLieInRoots }
{}

/// Weak duality under changes: under multipliers that fit, the picks of a plan that runs are priced at its cost and
/// what the changes add for them, or lower.
pub fn changed_plans_are_priced_low()
    ensures { ChangedPlansArePricedLow }
{}

/// Picks that follow are broken at the first hand-over whose second trip misses the part, at the part and with sign 1,
/// if there is one; where none misses its part, at the first fault of the yards, with the sign of the slack there; and
/// where the yards have no fault either, they are a solution.
pub fn picks_are_broken_first()
    ensures parts { PartsAreMissedOrNot }
    ensures missed { BrokenAtFirstMissed }
    ensures fault { BrokenAtFirstFault }
    ensures solved { SolvedWithoutFault }
{}

/// Picks that follow and are no solution have no open region alone: nothing is near it where they are broken at a
/// hand-over, and where they are broken at a yard, the multiplier that is named for them is a ray there.
pub fn broken_picks_are_closed()
    ensures law { BrokenPicksAreClosed }
{}

/// Under changes too picks that follow and are no solution have no open region alone, and for the same cause: at a
/// hand-over nothing is near it, and at a yard the multiplier that is named for them is a ray there, since what changes
/// add has no part in a value without cost.
pub fn changed_broken_picks_are_closed()
    ensures law { ChangedBrokenPicksAreClosed }
{}

/// The slacks of picks that follow are at most `MAX_SLACK` in size, which is 4,400, on the day itself and under any
/// changes. Under multipliers within their limits the priced values of picks that follow are below `MAX_PRICED_VALUE`
/// in size, which is 10^20, on the day itself and under the changes that `DayBounds::with_changes` takes.
pub fn values_are_small()
    ensures slacks { SlacksAreSmall }
    ensures values { ValuesAreSmall }
    ensures changed_slacks { ChangedSlacksAreSmall }
    ensures changed_values { ChangedValuesAreSmall }
    ensures limits { AreSizeLimits }
{}
