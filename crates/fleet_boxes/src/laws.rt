//! What is so of boxes of fleets and of trees of them, whether a call meets it or not.
//!
//! Each law is the contract of a function that does nothing.

ghost use Rattle.fleet_boxes.specs.Laws.{BoxesHaveAllFleets, FleetsCostTheirUnits, LargerFleetsCostNoLess};
ghost use Rattle.fleet_boxes.specs.Laws.{ProvedBoxesBound, SplitsPart};

/// Each fleet of a box that is parted is in exactly one part: in the lower one exactly where it has so many units at
/// the place or fewer, and in the upper one exactly where it has more. What is in a part is in the box.
pub fn splits_part()
    ensures law { SplitsPart }
{}

/// The box of a day has exactly the fleets of the day: those that have nowhere more units than its stock at the start.
pub fn boxes_have_all_fleets()
    ensures law { BoxesHaveAllFleets }
{}

/// A fleet without units costs nothing, and one unit more of a type, at any station, adds the price of the type, where
/// there is a price for each type.
pub fn fleets_cost_their_units()
    ensures law { FleetsCostTheirUnits }
{}

/// A fleet that has nowhere more units than another costs no more.
pub fn larger_fleets_cost_no_less()
    ensures law { LargerFleetsCostNoLess }
{}

/// Where boxes of an accepted day are proved, each fleet of the day with a plan that runs costs together with the plan
/// at least the value of some leaf with a bound: the bound, with what the least fleet of the leaf's box costs. So no
/// fleet with a plan that runs costs less than what is nowhere above these values, and where there is no such leaf, no
/// fleet has a plan that runs.
pub fn proved_boxes_bound()
    ensures law { ProvedBoxesBound }
{}
