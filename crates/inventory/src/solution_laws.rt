//! Which picks are solutions, whatever made them.
//!
//! Each law is the contract of a function that does nothing.

ghost use Rattle.inventory.specs.SolutionLaws.{FaultsDecide, SolutionsAreServed};

/// Picks are the types of a plan that runs exactly where each composition may run on its trip, each link's rule holds
/// over them, no yard is ever short of a unit, and each station ends the day with the units that are wanted.
pub fn solutions_are_served()
    ensures law { SolutionsAreServed }
{}

/// Picks are the types of a plan that runs exactly where each composition may run on its trip, each link's rule holds
/// over them, and the yards have no first fault.
pub fn faults_decide()
    ensures law { FaultsDecide }
{}
