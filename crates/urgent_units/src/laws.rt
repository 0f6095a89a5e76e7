//! What is so of legs, moments and cuts, whether a call meets it or not.
//!
//! Each law is the contract of a function that does nothing.

ghost use Rattle.urgent_units.specs.Exchanges.{ExchangedPlansRun};
ghost use Rattle.urgent_units.specs.Laws.{CutsBoundNamings, HeldUnitsAreReady, MomentsAreEvents, RunsAreLongest};
ghost use Rattle.urgent_units.specs.Laws.{TablesAreDecided};

/// A table of urgent units of a day says one wish at most, and where it says one it is refused for nothing but want of
/// memory.
pub fn tables_are_decided()
    ensures law { TablesAreDecided }
{}

/// The legs of a unit are the longest runs of trips in its duty of which each is kept into the next, and no other runs
/// are.
pub fn legs_are_longest()
    ensures law { RunsAreLongest }
{}

/// The minutes of a station's moments are those at which a leg leaves it or is ready at it, each once and in rising
/// order, and no other minutes are.
pub fn moments_are_events()
    ensures law { MomentsAreEvents }
{}

/// A unit whose legs are in the order in which they leave is held at a station, when so many minutes are over, exactly
/// where it is in the yard and ready: none of its legs has left yet and the station is its home; or the last one that
/// has left ends there, and the unit is ready.
pub fn held_units_are_ready()
    ensures law { HeldUnitsAreReady }
{}

/// No naming of a plan that runs brings more urgent units to the depot than any yard cut through the plan's legs is
/// worth: no plan that runs and has the same types on every trip.
pub fn cuts_bound_namings()
    ensures law { CutsBoundNamings }
{}

/// Two units of one type that stand ready in the yard of one station at a minute may exchange all trips that leave from
/// then on: a plan that runs still does, with the same types on every trip, and each of the two has the legs of the
/// other from that minute on.
pub fn exchanged_plans_run()
    ensures law { ExchangedPlansRun }
{}
