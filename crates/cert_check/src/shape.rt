//! The tests of the nodes as a list: that they are one whole tree, of as many branchings as are said.

ghost use Rattle.std.specs.Prelude.{◌≡◌, IfOk, IfErr};
ghost use Rattle.branch_tree.specs.Trees.{IsWhole, branchings_of};
ghost use Rattle.cert_check.specs.Reasons.{HasOtherBranchings, IsMisshapen};

use crate::verdict::Reason;
use branch_tree::{Claim, Tree};
use rail_base::NodeNo;

/// Tests that the nodes are one whole tree.
pub fn test_shape(tree: &Tree) -> Result<(), Reason>
    ensures whole { IfOk result (λ _. IsWhole tree.now) }
    ensures reason { IfErr result (IsMisshapen tree.now) }
{
    let mut missing: u32 = 1;
    for number in 0..tree.len() {
        if missing == 0 {
            return Err(Reason::TreeShape(NodeNo(number)));
        }
        missing = match tree.node(NodeNo(number)).cut() {
            Some(_) => missing + 1,
            None => missing - 1,
        };
    }
    if missing > 0 {
        return Err(Reason::TreeShape(NodeNo(tree.len())));
    }
    Ok(())
}

/// Tests that the tree has as many branchings as the claim says.
pub fn test_branchings(claim: &Claim<'_>) -> Result<(), Reason>
    ensures same { IfOk result (λ _. branchings_of claim.now.tree.now ≡ claim.now.branchings) }
    ensures reason { IfErr result (HasOtherBranchings claim.now.branchings claim.now.tree.now) }
{
    let found = claim.tree.branchings();
    if found != claim.branchings {
        return Err(Reason::BranchingsDiffer {
            said: claim.branchings,
            found,
        });
    }
    Ok(())
}
