//! The test of the nodes as a list: that they are one whole tree.

ghost use Rattle.std.specs.Prelude.{◌≡◌, ◌≤◌, ◌∷◌, [], length, IfOk, IfErr};
ghost use Rattle.fleet_check.specs.declared.found.TheConstants.{MAX_BOX_NODES};
ghost use Rattle.fleet_check.specs.Tests.{StopsAt};
ghost use Rattle.fleet_check.specs.Verdicts.{IsMisshapen, IsWhole};

use crate::found::MAX_BOX_NODES;
use crate::verdict::{FleetVerdict, Stop};
use fleet_boxes::BoxNode;

/// Tests that nodes are one whole tree in preorder.
pub(crate) fn test_shape(nodes: &[BoxNode]) -> Result<(), Stop>
    requires { length nodes.now ≤ MAX_BOX_NODES }
    ensures whole { IfOk result (λ _. IsWhole nodes.now) }
    ensures stops { IfErr result (StopsAt (IsMisshapen nodes.now ∷ [])) }
{
    let mut missing: u32 = 1;
    for number in 0..nodes.len() {
        if missing == 0 {
            return Err(Stop::Found(FleetVerdict::TreeShape(number as u32)));
        }
        missing = match &nodes[number] {
            BoxNode::Split { .. } => missing + 1,
            BoxNode::Bound { .. } => missing - 1,
            BoxNode::Nothing { .. } => missing - 1,
        };
    }
    if missing > 0 {
        return Err(Stop::Found(FleetVerdict::TreeShape(nodes.len() as u32)));
    }
    Ok(())
}
