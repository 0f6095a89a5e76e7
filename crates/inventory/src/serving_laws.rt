//! What is so of the counts of the yards, whether a call meets it or not.
//!
//! Each law is the contract of a function that does nothing.

ghost use Rattle.inventory.specs.ReadyUnits.{YardsHoldReadyUnits};
ghost use Rattle.inventory.specs.ServingLaws.{PlansAreServed, PlansOfUnitsAreServed, UnitsAreLeft, DeparturesAreEnough};

/// A plan that runs is served by the yards: its compositions may run on their trips, the rule of each link holds over
/// their types, no yard is ever short of a unit, and at the end of the day each station has as many units of each type
/// as are wanted.
pub fn plans_are_served()
    ensures law { PlansAreServed }
{}

/// So is a plan that runs with any units of the day, where as many of them, of each type, stand at each station as the
/// stock rows say for the start of the day.
pub fn plans_of_units_are_served()
    ensures law { PlansOfUnitsAreServed }
{}

/// The units as a plan leaves them, each where its duty ends or where it stood, are units of the day; and of each type
/// as many of them stand at each station as end the day there. So another day may begin with them.
pub fn units_are_left()
    ensures law { UnitsAreLeft }
{}

/// A yard that is not short of units of a type at the minutes at which trips leave its station is short of them at no
/// minute.
pub fn departures_are_enough()
    ensures law { DeparturesAreEnough }
{}

/// How many units of a type a yard holds in a plan that runs, once the trips that leave at a minute have left, is the
/// number of its units that stand there ready: that were given there by the last of their trips and are ready by then,
/// or have not left their home there.
pub fn yards_hold_ready_units()
    ensures law { YardsHoldReadyUnits }
{}
