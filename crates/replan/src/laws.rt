//! What is so of every disturbed day.
//!
//! Each law is the contract of a function that does nothing.

ghost use Rattle.replan.specs.Laws.{GoingOnLiesInRoot, PastsAreKept, PricesAreChangedCosts};

/// The past can always be kept: where a plan runs on a day, and some trips may be cancelled at a minute, all picks of
/// the later day that are a solution and keep the types of each frozen trip have a plan of named units that runs in the
/// later day, and in which each trip that left before the minute has the very units that it had.
pub fn pasts_are_kept()
    ensures law { PastsAreKept }
{}

/// Whatever goes on from the past is searched: each plan that runs in the later day and agrees with the past has picks
/// in the root region, and its price is what its picks cost with the changes.
pub fn what_goes_on_is_searched()
    ensures inside { GoingOnLiesInRoot }
    ensures price { PricesAreChangedCosts }
{}
