//! What holds of the edges of days, the links of which are such as an accepted day has.
//!
//! Each law is the contract of a function that does nothing.

ghost use Rattle.transitions.specs.Laws.{TypesFollow, EdgesFound, EdgesByRule, ShuntsCountUnits};

/// At each link the types of a plan that runs follow an edge that the link allows, with the shunt that the plan does
/// there and the second train's composition as its part.
pub fn types_follow_edges()
    ensures law { TypesFollow }
{}

/// Each edge that a link allows is found between its two compositions.
pub fn edges_are_found()
    ensures law { EdgesFound }
{}

/// A link allows an edge between compositions exactly where they may run on its trips and its rule holds of their
/// types.
pub fn edges_are_by_rule()
    ensures law { EdgesByRule }
{}

/// A turn has a shunt exactly where it has parts. The shunt uncouples as many units as the parts give, and couples as
/// many as they take; it is `Keep` where they give and take none.
pub fn shunts_count_units()
    ensures law { ShuntsCountUnits }
{}
