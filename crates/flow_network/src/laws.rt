//! What is so of flows, whether a call meets it or not.
//!
//! A law is the contract of a function that does nothing.

ghost use Rattle.flow_network.specs.Laws.{FlowsFillTheirCut, FlowsOutOfReachAreLargest};

/// A flow is largest where the sink isn't within reach of the source any more: no flow through the network brings more
/// from the source.
pub fn flows_out_of_reach_are_largest()
    ensures law { FlowsOutOfReachAreLargest }
{}

/// Then what leaves the source is as much as may go from the nodes that are reached to the others: the largest flow has
/// the capacity of this cut.
pub fn flows_fill_their_cut()
    ensures law { FlowsFillTheirCut }
{}
