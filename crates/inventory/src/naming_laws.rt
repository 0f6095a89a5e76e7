//! What is so of naming units, whether a call meets it or not.
//!
//! Each law is the contract of a function that does nothing.

ghost use Rattle.inventory.specs.NamingLaws.{NamedPlansRun, RunningPlansAreNamed, ServedPlansRun, UnitsAreTakenInTurn};
ghost use Rattle.inventory.specs.NamingLaws.{ServedPlansRunWithUnits, NamesStay, PlansNameTheirPast};

/// Compositions that the links and the yards allow are the types of a plan that runs: the one that is named by the
/// rule.
pub fn served_plans_run()
    ensures law { ServedPlansRun }
{}

/// They are the types of a plan that runs with any units of the day too, where as many of them, of each type, stand at
/// each station as the stock rows say for the start of the day: the one that is named by the rule, in which the k-th
/// unit of the stock, of a type at a station, is the k-th of these.
pub fn served_plans_run_with_units()
    ensures law { ServedPlansRunWithUnits }
{}

/// From any minute on: where the trips that depart before the minute are named as the rules demand it, naming
/// the others by the rule gives a plan that runs, and leaves those as they are.
pub fn named_plans_run()
    ensures law { NamedPlansRun }
{}

/// The trips of a plan that runs are named as the rules demand it, up to any minute.
pub fn running_plans_are_named()
    ensures law { RunningPlansAreNamed }
{}

/// What is named up to a minute as the rules demand it stays so with other compositions, where these are the same on
/// each trip that is frozen: that leaves before the minute, or to which a link leads from a trip that arrives before
/// it.
pub fn names_stay()
    ensures law { NamesStay }
{}

/// So the trips of a plan that runs are named as the rules demand it, up to a minute, with all compositions that are
/// the plan's on each frozen trip.
pub fn plans_name_their_past()
    ensures law { PlansNameTheirPast }
{}

/// Where a unit may be taken, the one that was ready earliest is taken, and of those the one with the smallest number.
pub fn units_are_taken_in_turn()
    ensures law { UnitsAreTakenInTurn }
{}
