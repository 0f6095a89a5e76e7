//! The test of a node in its region: that a cut is proper there, and that a leaf's multipliers fit and give what it
//! says.

ghost use Rattle.std.specs.Prelude.{◌≡◌, ◌∷◌, [], ◌↔◌, length, IfOk, IfErr, IsTrue, Some};
ghost use Rattle.branch_tree.specs.Bounds.{IsChainValue, IsEmpty};
ghost use Rattle.branch_tree.specs.Claims.{IsProvedAt, IsRay};
ghost use Rattle.branch_tree.specs.Cuts.{IsProper};
ghost use Rattle.branch_tree.specs.Meanings.{DoFitFor};
ghost use Rattle.cert_check.specs.Reasons.{node_tests, HasOtherBound, IsFound, IsImproper, IsNoRay, IsNotEmpty};
ghost use Rattle.cert_check.specs.Reasons.{IsUnfit};
ghost use Rattle.cert_check.specs.Tests.{FirstFails};

use crate::verdict::Reason;
use branch_tree::{BoundAnswer, Cut, Multipliers, Node, Region, Relaxation, Weight, is_positive};
use rail_base::{Money, NodeNo};
use timetable::Picks;

/// Tests a node of a number in its region. The picks found for a leaf are put in `best`; an empty leaf is tested under
/// no multipliers.
pub fn test_node<R: Relaxation>(
    problem: &mut R,
    region: &Region,
    number: NodeNo,
    node: &Node,
    best: &mut Picks,
    no_multipliers: &Multipliers,
) -> Result<(), Reason>
    // A problem, and a set and a pick for each of its trips.
    requires accepted { R.IsWellPosed (R.problem problem.old) }
    requires region { length region.now ≡ (R.meanings (R.problem problem.old)).trips }
    requires best { length best.old ≡ (R.meanings (R.problem problem.old)).trips }
    requires none { no_multipliers.now ≡ [] }
    // What is found.
    ensures passed { IfOk result (λ _. IsProvedAt (R.meanings (R.problem problem.old)) region.now node.now) }
    ensures reason { IfErr result (FirstFails
        (node_tests (R.meanings (R.problem problem.old)) number region.now node.now)) }
    // What is left as it was.
    ensures problem { R.problem problem.new ≡ R.problem problem.old }
    ensures best { length best.new ≡ length best.old }
{
    match node {
        Node::Branch(cut) => test_cut(problem, region, number, cut),
        Node::CostLeaf { bound, multipliers } => {
            test_bound(problem, region, number, *bound, multipliers, best)
        }
        Node::RayLeaf { multipliers } => test_ray(problem, region, number, multipliers, best),
        Node::EmptyLeaf => test_empty(problem, region, number, best, no_multipliers),
    }
}

/// Tests that the cut of a branch is proper in its region.
fn test_cut<R: Relaxation>(
    problem: &R,
    region: &Region,
    number: NodeNo,
    cut: &Cut,
) -> Result<(), Reason>
    ensures passed { IfOk result (λ _. IsProper (R.meanings (R.problem problem.now)).catalogue region.now cut.now) }
    ensures reason { IfErr result (IsImproper (R.meanings (R.problem problem.now)) number region.now cut.now) }
{
    if region.is_proper(problem.catalogue(), cut) {
        Ok(())
    } else {
        Err(Reason::NotProper(number))
    }
}

/// Tests that the multipliers of a cost leaf fit, and that its bound is the chain value that is found for its region.
fn test_bound<R: Relaxation>(
    problem: &mut R,
    region: &Region,
    number: NodeNo,
    bound: Money,
    multipliers: &Multipliers,
    best: &mut Picks,
) -> Result<(), Reason>
    // A problem, and a set and a pick for each of its trips.
    requires accepted { R.IsWellPosed (R.problem problem.old) }
    requires region { length region.now ≡ (R.meanings (R.problem problem.old)).trips }
    requires best { length best.old ≡ (R.meanings (R.problem problem.old)).trips }
    // What is found.
    ensures fit { IfOk result (λ _. DoFitFor (R.meanings (R.problem problem.old)) multipliers.now) }
    ensures passed { IfOk result (λ _. IsChainValue
        (R.meanings (R.problem problem.old)) region.now multipliers.now Weight.Cost bound.0) }
    ensures reason { IfErr result (FirstFails
        (IsUnfit (R.meanings (R.problem problem.old)) number multipliers.now
        ∷ HasOtherBound (R.meanings (R.problem problem.old)) number region.now bound multipliers.now ∷ [])) }
    // What is left as it was.
    ensures problem { R.problem problem.new ≡ R.problem problem.old }
    ensures best { length best.new ≡ length best.old }
{
    if !does_fit(problem, multipliers) {
        return Err(Reason::MultiplierIndex(number));
    }
    let found = find(problem, region, multipliers, Weight::Cost, best);
    if is_value(found, bound) {
        Ok(())
    } else {
        Err(Reason::BoundDiffers {
            node: number,
            said: bound,
            found,
        })
    }
}

/// Tests that the multipliers of a ray leaf fit, and that the chain value without cost that is found for its region is
/// positive.
fn test_ray<R: Relaxation>(
    problem: &mut R,
    region: &Region,
    number: NodeNo,
    multipliers: &Multipliers,
    best: &mut Picks,
) -> Result<(), Reason>
    // A problem, and a set and a pick for each of its trips.
    requires accepted { R.IsWellPosed (R.problem problem.old) }
    requires region { length region.now ≡ (R.meanings (R.problem problem.old)).trips }
    requires best { length best.old ≡ (R.meanings (R.problem problem.old)).trips }
    // What is found.
    ensures fit { IfOk result (λ _. DoFitFor (R.meanings (R.problem problem.old)) multipliers.now) }
    ensures passed { IfOk result (λ _. IsRay (R.meanings (R.problem problem.old)) region.now multipliers.now) }
    ensures reason { IfErr result (FirstFails
        (IsUnfit (R.meanings (R.problem problem.old)) number multipliers.now
        ∷ IsNoRay (R.meanings (R.problem problem.old)) number region.now multipliers.now ∷ [])) }
    // What is left as it was.
    ensures problem { R.problem problem.new ≡ R.problem problem.old }
    ensures best { length best.new ≡ length best.old }
{
    if !does_fit(problem, multipliers) {
        return Err(Reason::MultiplierIndex(number));
    }
    let found = find(problem, region, multipliers, Weight::NoCost, best);
    if is_positive(found) {
        Ok(())
    } else {
        Err(Reason::RayNotPositive {
            node: number,
            found,
        })
    }
}

/// Tests that nothing is found for the region of an empty leaf.
fn test_empty<R: Relaxation>(
    problem: &mut R,
    region: &Region,
    number: NodeNo,
    best: &mut Picks,
    no_multipliers: &Multipliers,
) -> Result<(), Reason>
    // A problem, and a set and a pick for each of its trips.
    requires accepted { R.IsWellPosed (R.problem problem.old) }
    requires region { length region.now ≡ (R.meanings (R.problem problem.old)).trips }
    requires best { length best.old ≡ (R.meanings (R.problem problem.old)).trips }
    requires none { no_multipliers.now ≡ [] }
    // What is found.
    ensures passed { IfOk result (λ _. IsEmpty (R.meanings (R.problem problem.old)) region.now) }
    ensures reason { IfErr result (IsNotEmpty (R.meanings (R.problem problem.old)) number region.now) }
    // What is left as it was.
    ensures problem { R.problem problem.new ≡ R.problem problem.old }
    ensures best { length best.new ≡ length best.old }
{
    match find(problem, region, no_multipliers, Weight::NoCost, best) {
        None => Ok(()),
        Some(_) => Err(Reason::NotEmpty(number)),
    }
}

/// The chain value of a region under multipliers that fit, or nothing where no picks are near it.
fn find<R: Relaxation>(
    problem: &mut R,
    region: &Region,
    multipliers: &Multipliers,
    weight: Weight,
    best: &mut Picks,
) -> Option<Money>
    // A problem, and a set and a pick for each of its trips.
    requires accepted { R.IsWellPosed (R.problem problem.old) }
    requires fit { DoFitFor (R.meanings (R.problem problem.old)) multipliers.now }
    requires region { length region.now ≡ (R.meanings (R.problem problem.old)).trips }
    requires best { length best.old ≡ (R.meanings (R.problem problem.old)).trips }
    // What is found.
    ensures found { IsFound (R.meanings (R.problem problem.old)) region.now multipliers.now weight result }
    // What is left as it was.
    ensures problem { R.problem problem.new ≡ R.problem problem.old }
    ensures best { length best.new ≡ length best.old }
{
    match problem.bound(region, multipliers, weight, best) {
        BoundAnswer::Empty => None,
        BoundAnswer::Value(value) => Some(value),
    }
}

/// Whether multipliers fit a problem.
fn does_fit<R: Relaxation>(problem: &R, multipliers: &Multipliers) -> bool
    ensures { IsTrue result ↔ DoFitFor (R.meanings (R.problem problem.now)) multipliers.now }
{
    multipliers.fits(problem.indices(), problem.free_from())
}

/// Whether what was found is this value.
pub fn is_value(found: Option<Money>, value: Money) -> bool
    ensures { IsTrue result ↔ (found ≡ Some value) }
{
    match found {
        Some(other) => other.0 == value.0,
        None => false,
    }
}
