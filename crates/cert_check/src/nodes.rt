//! The test of all nodes of a whole tree in preorder, each in its region.

ghost use Rattle.std.specs.Prelude.{◌≡◌, ◌≤◌, ◌∷◌, [], length, vec_capacity, IfOk, IfErr};
ghost use Rattle.branch_tree.specs.Claims.{IsProvedAt};
ghost use Rattle.branch_tree.specs.Trees.{Covers, IsWhole, cut_of, nodes_in};
ghost use Rattle.cert_check.specs.Reasons.{tests_from};
ghost use Rattle.cert_check.specs.Tests.{FirstFails};

use crate::leaves::test_node;
use crate::path::{TakenSide, go_back, go_on};
use crate::verdict::Reason;
use branch_tree::{Multipliers, Region, Relaxation, Tree};
use rail_base::NodeNo;
use timetable::Picks;

/// Tests the nodes of a whole tree in preorder, up to the first that fails. The root is cut in place on the way, and
/// afterwards as it was.
pub fn test_nodes<R: Relaxation>(
    problem: &mut R,
    root: &mut Region,
    tree: &Tree,
    taken: &mut Vec<TakenSide>,
    best: &mut Picks,
    no_multipliers: &Multipliers,
) -> Result<(), Reason>
    // A whole tree for which there is room, and a set and a pick for each trip.
    requires accepted { R.IsWellPosed (R.problem problem.old) }
    requires whole { IsWhole tree.now }
    requires room { length tree.now ≤ vec_capacity taken.old }
    requires root { length root.old ≡ (R.meanings (R.problem problem.old)).trips }
    requires best { length best.old ≡ (R.meanings (R.problem problem.old)).trips }
    requires none { no_multipliers.now ≡ [] }
    requires taken { taken.old.items ≡ [] }
    // Each node passes its tests, or one is the first that fails.
    ensures passed { IfOk result (λ _. Covers (R.meanings (R.problem problem.old)).catalogue
        (IsProvedAt (R.meanings (R.problem problem.old))) root.old tree.now) }
    ensures reason { IfErr result (FirstFails (tests_from (R.meanings (R.problem problem.old)) 0
        (nodes_in cut_of (R.meanings (R.problem problem.old)).catalogue (root.old ∷ []) tree.now))) }
    // What is left as it was.
    ensures root { root.new ≡ root.old }
    ensures problem { R.problem problem.new ≡ R.problem problem.old }
    ensures best { length best.new ≡ length best.old }
    ensures taken { taken.new.items ≡ [] }
    ensures room { vec_capacity taken.old ≤ vec_capacity taken.new }
{
    for number in 0..tree.len() {
        let number = NodeNo(number);
        let node = tree.node(number);
        if let Err(reason) = test_node(problem, root, number, node, best, no_multipliers) {
            go_back(taken, root);
            return Err(reason);
        }
        go_on(taken, problem.catalogue(), root, node.cut());
    }
    Ok(())
}
