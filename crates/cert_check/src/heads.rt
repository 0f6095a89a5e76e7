//! The tests of a claim's picks, and of what it says of all solutions.

ghost use Rattle.std.specs.Prelude.{◌≡◌, ◌≢◌, ◌↔◌, length, All, ◌≤ℤ◌, ◌<ℤ◌, int_lt, [], IsTrue, IfOk, IfErr};
ghost use Rattle.std.specs.Prelude.{MatchOption, Some};
ghost use Rattle.branch_tree.specs.Claims.{DoBound, IsPlanIn, concluded_plan, said_by};
ghost use Rattle.branch_tree.specs.Trees.{IsLeast, bounds_of};
ghost use Rattle.cert_check.specs.Reasons.{HasOtherLeast, IsBelowCost, IsLeft, head_tests, leaf_tests};
ghost use Rattle.cert_check.specs.Reasons.{plan_tests, priced_at};
ghost use Rattle.cert_check.specs.Tests.{FirstFails};

use crate::leaves::is_value;
use crate::verdict::Reason;
use branch_tree::{ClaimHead, Region, Relaxation, Settled, Tree};
use rail_base::{Money, NodeNo};
use timetable::Picks;

/// Tests that the picks of a claim, where it has some, are a solution in the root of the cost that is said.
pub fn test_picks<R: Relaxation>(
    problem: &mut R,
    root: &Region,
    head: &ClaimHead<'_>,
) -> Result<(), Reason>
    requires { length root.now ≡ (R.meanings (R.problem problem.old)).trips }
    ensures passed { IfOk result (λ _. MatchOption (concluded_plan (said_by head.now)) (Unit {0})
        (IsPlanIn (R.meanings (R.problem problem.old)) root.now)) }
    ensures reason { IfErr result (FirstFails
        (plan_tests (R.meanings (R.problem problem.old)) root.now (concluded_plan (said_by head.now)))) }
    ensures problem { R.problem problem.new ≡ R.problem problem.old }
{
    match head {
        ClaimHead::Optimal { cost, picks } | ClaimHead::BoundedPlan { cost, picks, .. } => {
            test_plan(problem, root, *cost, picks)
        }
        ClaimHead::Infeasible | ClaimHead::Bounded { .. } => Ok(()),
    }
}

/// Tests that picks are a solution in the root of this cost.
fn test_plan<R: Relaxation>(
    problem: &mut R,
    root: &Region,
    cost: Money,
    picks: &Picks,
) -> Result<(), Reason>
    requires { length root.now ≡ (R.meanings (R.problem problem.old)).trips }
    ensures passed { IfOk result (λ _.
        IsPlanIn (R.meanings (R.problem problem.old)) root.now (priced_at cost picks.now)) }
    ensures reason { IfErr result (FirstFails
        (plan_tests (R.meanings (R.problem problem.old)) root.now (Some (priced_at cost picks.now)))) }
    ensures problem { R.problem problem.new ≡ R.problem problem.old }
{
    if !root.holds(picks) {
        return Err(Reason::PicksFail);
    }
    if !problem.follows(picks) {
        return Err(Reason::PicksFail);
    }
    match problem.settle(picks) {
        Settled::Broken { .. } => Err(Reason::PicksFail),
        Settled::Costs(found) => test_cost(cost, found),
    }
}

/// Tests that the cost that was found is the one that is said.
fn test_cost(said: Money, found: Money) -> Result<(), Reason>
    ensures passed { IfOk result (λ _. found ≡ said) }
    ensures reason { IfErr result (λ reason. (reason ≡ Reason.CostDiffers said found) × (said ≢ found)) }
{
    if found.0 == said.0 {
        Ok(())
    } else {
        Err(Reason::CostDiffers { said, found })
    }
}

/// Tests that the bounds of the cost leaves prove what the claim says of all solutions.
pub fn test_head(tree: &Tree, head: &ClaimHead<'_>) -> Result<(), Reason>
    ensures passed { IfOk result (λ _. DoBound (bounds_of tree.now) (said_by head.now)) }
    ensures reason { IfErr result (FirstFails (head_tests (said_by head.now) tree.now)) }
{
    match head {
        ClaimHead::Optimal { cost, .. } => test_none_below(tree, *cost),
        ClaimHead::Infeasible => test_no_cost_leaf(tree),
        ClaimHead::Bounded { bound } | ClaimHead::BoundedPlan { bound, .. } => {
            test_least(tree, *bound)
        }
    }
}

/// Tests that no cost leaf has a bound below a cost.
fn test_none_below(tree: &Tree, cost: Money) -> Result<(), Reason>
    ensures passed { IfOk result (λ _. All (λ bound. cost.0 ≤ℤ bound) (bounds_of tree.now)) }
    ensures reason { IfErr result (FirstFails (leaf_tests (IsBelowCost cost.0) 0 tree.now)) }
{
    for number in 0..tree.len() {
        if let Some(bound) = tree.node(NodeNo(number)).bound() {
            if is_below(bound, cost) {
                return Err(Reason::LeafBelowCost {
                    node: NodeNo(number),
                    bound,
                    cost,
                });
            }
        }
    }
    Ok(())
}

/// Tests that there is no cost leaf.
fn test_no_cost_leaf(tree: &Tree) -> Result<(), Reason>
    ensures passed { IfOk result (λ _. bounds_of tree.now ≡ []) }
    ensures reason { IfErr result (FirstFails (leaf_tests IsLeft 0 tree.now)) }
{
    for number in 0..tree.len() {
        if tree.node(NodeNo(number)).bound().is_some() {
            return Err(Reason::CostLeafLeft(NodeNo(number)));
        }
    }
    Ok(())
}

/// Tests that the least bound of the cost leaves is the one that is said.
fn test_least(tree: &Tree, said: Money) -> Result<(), Reason>
    ensures passed { IfOk result (λ _. IsLeast (bounds_of tree.now) said.0) }
    ensures reason { IfErr result (HasOtherLeast said.0 tree.now) }
{
    let found = tree.least_bound();
    if is_value(found, said) {
        Ok(())
    } else {
        Err(Reason::LeastBoundDiffers { said, found })
    }
}

/// Whether a bound is below an amount.
fn is_below(bound: Money, amount: Money) -> bool
    ensures value { result ≡ int_lt bound.0 amount.0 }
    ensures below { IsTrue result ↔ (bound.0 <ℤ amount.0) }
{
    bound.0 < amount.0
}
