//! What ties week plans to the plans of single days, and when a trip is late.
//!
//! A law is the contract of a function that does nothing.

ghost use Rattle.week_units.specs.Laws.{LateTripsAreReadyTooLate, NamedPlansMakeWeeks, WeeksHaveNoFault};
ghost use Rattle.week_units.specs.Laws.{WeeksMakeDayPlans};

/// Plans that run on the days of a week, of the days' own units, are a week plan that runs once these are named, and it
/// costs what they cost together.
pub fn named_plans_make_weeks()
    ensures law { NamedPlansMakeWeeks }
{}

/// Each day of a week plan that runs is, with its units renumbered, a plan of the day's own units that runs on this day
/// and costs the same. So where no plan runs on some day, no week plan runs; and a week plan costs no less than the
/// days' plans must together.
pub fn weeks_make_day_plans()
    ensures law { WeeksMakeDayPlans }
{}

/// A trip of the day before is late exactly where its reallocation has not ended at the departure of some trip of the
/// day; or, where the day has no trip, not as it begins. The minutes of the day are counted from 1,440 on by the clock
/// of the day before. It does not matter whether the trip gives a unit to a yard.
pub fn late_trips_are_ready_too_late()
    ensures law { LateTripsAreReadyTooLate }
{}

/// Days that make a week have no first reason why they make none.
pub fn weeks_have_no_fault()
    ensures law { WeeksHaveNoFault }
{}
