//! What is so of fleets and of the days with them, whether a call meets it or not.
//!
//! Each law is the contract of a function that does nothing.

ghost use Rattle.fleets.specs.Laws.{DaysOfFleetsAreSound, FleetsAreNumbered, FleetsStand, OwnFleetsStand};
ghost use Rattle.fleets.specs.Laws.{PlansRunWithMoreUnits, SmallerFleetsFit, TablesMakeDaysOfFleets};

/// Where tables make a day, they make the day with a fleet that fits it once the stock rows are those of the fleet.
pub fn tables_make_days_of_fleets()
    ensures law { TablesMakeDaysOfFleets }
{}

/// The units of a day's stock at its start, as a fleet, are at each station and of each type as many as start the day
/// there.
pub fn own_fleets_stand()
    ensures law { OwnFleetsStand }
{}

/// On the day with a fleet that fits it as many units of each type stand at each station at the start as the fleet has
/// there, and as many are wanted at the end.
pub fn fleets_stand()
    ensures law { FleetsStand }
{}

/// The units of the day with a fleet are numbered by station and then type: each unit that a fleet has at a station, of
/// a type, is at home there and of the type, and has a number after those of all stations before, and of the types
/// before at the station. There are as many units as the fleet has in all.
pub fn fleets_are_numbered()
    ensures law { FleetsAreNumbered }
{}

/// A fleet that has nowhere more units than one that fits a day fits it too: it has a number for each station and type
/// of the day, and no more units in all than a day may have.
pub fn smaller_fleets_fit()
    ensures law { SmallerFleetsFit }
{}

/// An accepted day with a fleet that fits it is sound, as the accepted day is: of it holds what the laws on days ask
/// for.
pub fn days_of_fleets_are_sound()
    ensures law { DaysOfFleetsAreSound }
{}

/// A plan that runs on the day with one fleet gives a plan that runs on the day with any fleet that has nowhere fewer
/// units: with other numbers of its units. Its trips have the same types, so it costs the same.
pub fn plans_run_with_more_units()
    ensures law { PlansRunWithMoreUnits }
{}
