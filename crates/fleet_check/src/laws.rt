//! What is so of tables of prices, and of verdicts on what is said of all fleets, whether a call meets it or not.
//!
//! Each law is the contract of a function that does nothing.

ghost use Rattle.fleet_check.specs.Laws.{FleetVerdictsAreOne, PricesAreDecided};

/// A table of prices of a day says one list of prices at most. Where it says one it is refused for nothing but want of
/// memory, and else it is refused for one cause at most, want of memory aside.
pub fn prices_are_decided()
    ensures law { PricesAreDecided }
{}

/// What is said of all fleets of a day has one verdict at most, so that the first thing that is wrong with it is one.
pub fn fleet_verdicts_are_one()
    ensures law { FleetVerdictsAreOne }
{}
