//! What holds of every cut, tree and relaxation.
//!
//! Each law is the contract of a function that does nothing. A law of relaxations holds of each accepted problem, and
//! `Relaxation::trips` tells that its own is one.

ghost use Rattle.branch_tree.specs.Claims.{IsProvedAt};
ghost use Rattle.branch_tree.specs.Laws.{CutsKeep, PicksLieByTrip, CutsDivide, CutsAreUndone, LeavesCover};
ghost use Rattle.branch_tree.specs.Laws.{CoversEach, LeavesGrow, LeavesExceedBranches, ProperCutsEnd, RootsAreOver};
ghost use Rattle.branch_tree.specs.Laws.{RootsAreFilled, SidesAreFilled, SolutionsLieInRoots};
ghost use Rattle.branch_tree.specs.Laws.{SidesAreOver, SomeCutsAreProper, SolutionsArePricedLow};
ghost use Rattle.branch_tree.specs.Laws.{BoundsAreChainValues, ChainValuesAreOne, EmptyHasNoChainValue};
ghost use Rattle.branch_tree.specs.Laws.{ChainValuesBound, EmptyHasNoSolution, RaysHaveNoSolution};
ghost use Rattle.branch_tree.specs.Laws.{BrokenPicksHaveRays, SinglePicksAreEvident, ProvedAtEachNode};
ghost use Rattle.branch_tree.specs.Laws.{ProvedIsConcluded};

use crate::relaxation::Relaxation;

/// A side of a cut has what the region has, less what is on the other side in the set of the cut's trip.
pub fn cuts_keep()
    ensures law { CutsKeep }
{}

/// Picks are in a region exactly where there is one for each trip, and each is in its trip's set.
pub fn picks_lie_by_trip()
    ensures law { PicksLieByTrip }
{}

/// The picks of a region are divided by a cut of one of its trips: each is on exactly one side, on which its pick of
/// that trip is.
pub fn cuts_divide()
    ensures law { CutsDivide }
{}

/// A set that is put back after a cut makes the region what it was.
pub fn cuts_are_undone()
    ensures law { CutsAreUndone }
{}

/// The region of a day is over its trips and its catalogue, and a side of a cut is over those of its region.
pub fn regions_are_over_their_day()
    ensures roots { RootsAreOver }
    ensures sides { SidesAreOver }
{}

/// In the region of an accepted day each trip has some composition, and every solution lies in it.
pub fn roots_have_all_solutions()
    ensures filled { RootsAreFilled }
    ensures solutions { SolutionsLieInRoots }
{}

/// Each side of a proper cut of a region in which each trip has some composition is such a region.
pub fn sides_are_filled()
    ensures law { SidesAreFilled }
{}

/// Where a trip has more than one composition, the cut of one of them alone is proper.
pub fn some_cuts_are_proper()
    ensures law { SomeCutsAreProper }
{}

/// Each pick of the root is in the region of exactly one leaf.
pub fn leaves_cover()
    ensures law { LeavesCover }
{}

/// A whole tree has one leaf more than branches.
pub fn leaves_exceed_branches()
    ensures law { LeavesExceedBranches }
{}

/// Where every cut is proper and each trip of the root has a composition, a tree has fewer branches than its root has
/// picks; and where they are one fewer, each leaf has one composition for each trip.
pub fn proper_cuts_end()
    ensures law { ProperCutsEnd }
{}

/// Weak duality: under multipliers that fit, a solution is priced at its cost or lower, and at 0 or lower without cost.
pub fn solutions_are_priced_low<R: Relaxation>()
    ensures law { (problem : R.Problem) → R.IsWellPosed problem → SolutionsArePricedLow (R.meanings problem) }
{}

/// The value that a bound answers is the chain value of the region, which has no other, and none where nothing is near
/// it.
pub fn bounds_are_chain_values<R: Relaxation>()
    ensures value { (problem : R.Problem) → BoundsAreChainValues (R.meanings problem) }
    ensures one { (problem : R.Problem) → ChainValuesAreOne (R.meanings problem) }
    ensures empty { (problem : R.Problem) → EmptyHasNoChainValue (R.meanings problem) }
{}

/// No solution in a region costs less than its chain value under multipliers that fit.
pub fn chain_values_bound<R: Relaxation>()
    ensures law { (problem : R.Problem) → R.IsWellPosed problem → ChainValuesBound (R.meanings problem) }
{}

/// A region has no solution where nothing is near it, or where its chain value without cost is positive.
pub fn empty_regions_and_rays_have_no_solution<R: Relaxation>()
    ensures empty { (problem : R.Problem) → R.IsWellPosed problem → EmptyHasNoSolution (R.meanings problem) }
    ensures ray { (problem : R.Problem) → R.IsWellPosed problem → RaysHaveNoSolution (R.meanings problem) }
{}

/// The multiplier that is named for picks which follow and are no solution shows that the region of these picks alone
/// has no solution.
pub fn broken_picks_have_rays<R: Relaxation>()
    ensures law { (problem : R.Problem) → R.IsWellPosed problem → BrokenPicksHaveRays (R.meanings problem) }
{}

/// A region with one composition for each trip has an evident end.
pub fn single_picks_are_evident<R: Relaxation>()
    ensures law { (problem : R.Problem) → R.IsWellPosed problem → SinglePicksAreEvident (R.meanings problem) }
{}

/// What a proved claim says throughout the tree is what it says of each node in its region; and it is said throughout
/// the tree exactly where the tree is whole and it is said of each node.
pub fn proved_at_each_node<R: Relaxation>()
    ensures together { (problem : R.Problem) → ProvedAtEachNode (R.meanings problem) }
    ensures each { (problem : R.Problem) → CoversEach (IsProvedAt (R.meanings problem)) }
{}

/// In a proved tree a leaf may be replaced by the nodes of a proved tree over its region.
pub fn proved_leaves_grow<R: Relaxation>()
    ensures law { (problem : R.Problem) → LeavesGrow (IsProvedAt (R.meanings problem)) }
{}

/// What a tree proves is true of all solutions in the root: no solution costs less than an optimal one or a bound, and
/// an infeasible root has none.
pub fn proved_is_concluded<R: Relaxation>()
    ensures law { (problem : R.Problem) → R.IsWellPosed problem → ProvedIsConcluded (R.meanings problem) }
{}
