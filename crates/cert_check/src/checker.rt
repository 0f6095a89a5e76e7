//! The checker of claims.

ghost use Rattle.std.specs.Prelude.{◌≡◌, ◌≤◌, [], length, vec_capacity, IfOk, IfErr};
ghost use Rattle.rail_base.specs.declared.limits.TheConstants.{MAX_NODES};
ghost use Rattle.branch_tree.specs.Claims.{IsConcluded, IsProvedClaim, said_by};
ghost use Rattle.branch_tree.specs.Regions.{IsOver};
ghost use Rattle.cert_check.specs.Reasons.{claim_tests};
ghost use Rattle.cert_check.specs.Tests.{FirstFails};
ghost use Rattle.cert_check.specs.Verdicts.{IsVerdict};

use crate::heads::{test_head, test_picks};
use crate::nodes::test_nodes;
use crate::path::TakenSide;
use crate::shape::{test_branchings, test_shape};
use crate::verdict::{Reason, Verdict};
use branch_tree::{Claim, Multipliers, Region, Relaxation};
use rail_base::NoMemory;
use std::alloc::Global;
use std::marker::Model;
use timetable::Picks;

/// The room in which claims are checked: for trees of at most so many nodes, and problems of so many trips.
#[derive(Drop)]
pub struct Checker {
    nodes: u32,
    taken: Vec<TakenSide>,
    best: Picks,
    no_multipliers: Multipliers,
}

impl Model for Checker {
    ghost use Rattle.std.specs.Prelude.{◌≡◌, ◌≤◌, [], length, vec_capacity};
    ghost use Rattle.cert_check.specs.Sizes.{Sizes};

    ghost Value = { Sizes };

    ghost view = { λ a. record { nodes = a.nodes; trips = length a.best } };

    ghost invariant = { λ a. (a.taken.items ≡ []) × (a.nodes ≤ vec_capacity a.taken) × (a.no_multipliers ≡ []) };
}

impl Checker {
    /// A checker for trees of at most so many nodes, which are at most 8,001, and problems of so many trips. It takes
    /// all the memory that a check needs; the error is want of it.
    pub fn new(alloc: Global, nodes: u32, trips: u32) -> Result<Checker, NoMemory>
        requires { nodes ≤ MAX_NODES }
        ensures nodes { IfOk result (λ checker. checker.nodes ≡ nodes) }
        ensures trips { IfOk result (λ checker. checker.trips ≡ trips) }
    {
        Ok(Checker {
            nodes,
            taken: Vec::with_capacity(alloc, nodes as usize)?,
            best: Picks::new(alloc, trips)?,
            no_multipliers: Multipliers::new(alloc)?,
        })
    }

    /// Checks a claim of a problem over a root region: it is valid exactly where its tree proves it, and else the
    /// verdict is the first reason that holds. The tree has no more nodes than the checker was made for, and the
    /// problem has as many trips. The root region is one of this problem, and afterwards as it was. It takes no memory.
    ///
    /// What a valid claim says is true of all solutions in the root, whoever made it: no solution costs less than an
    /// optimal one or a bound, and an infeasible root has none.
    pub fn check<R: Relaxation>(
        &mut self,
        problem: &mut R,
        root: &mut Region,
        claim: &Claim<'_>,
    ) -> Verdict
        // What the checker was made for, and a root of the problem.
        requires nodes { length claim.now.tree.now ≤ self.old.nodes }
        requires trips { (R.meanings (R.problem problem.old)).trips ≡ self.old.trips }
        requires root { IsOver self.old.trips (R.meanings (R.problem problem.old)).catalogue root.old }
        // Valid exactly where the tree proves the claim, and else the first reason that holds.
        ensures verdict { IsVerdict (R.meanings (R.problem problem.old)) root.old claim.now result }
        // What a valid claim says is true of all solutions in the root.
        ensures holds { result ≡ Verdict.Valid → IsConcluded (R.meanings (R.problem problem.old)) root.old
            (said_by claim.now.head) }
        // What is left as it was.
        ensures root { root.new ≡ root.old }
        ensures problem { R.problem problem.new ≡ R.problem problem.old }
        ensures sizes { self.new ≡ self.old }
    {
        let trips = problem.trips();
        prove!(trips == self.best.len());
        let tested = test_claim(
            problem,
            root,
            claim,
            &mut self.taken,
            &mut self.best,
            &self.no_multipliers,
        );
        match tested {
            Ok(()) => Verdict::Valid,
            Err(reason) => Verdict::Invalid(reason),
        }
    }
}

/// The verdict on a claim of a problem over a root region, as `Checker::check` finds it. The root region is one of this
/// problem, and afterwards as it was. The error is want of memory.
pub fn checked<R: Relaxation>(
    alloc: Global,
    problem: &mut R,
    root: &mut Region,
    claim: &Claim<'_>,
) -> Result<Verdict, NoMemory>
    requires root { IsOver (R.meanings (R.problem problem.old)).trips
        (R.meanings (R.problem problem.old)).catalogue root.old }
    ensures verdict { IfOk result (IsVerdict (R.meanings (R.problem problem.old)) root.old claim.now) }
    ensures holds { IfOk result (λ verdict. verdict ≡ Verdict.Valid →
        IsConcluded (R.meanings (R.problem problem.old)) root.old (said_by claim.now.head)) }
    ensures root { root.new ≡ root.old }
    ensures problem { R.problem problem.new ≡ R.problem problem.old }
{
    let mut checker = Checker::new(alloc, claim.tree.len(), problem.trips())?;
    Ok(checker.check(problem, root, claim))
}

/// Tests a claim up to the first test that fails.
fn test_claim<R: Relaxation>(
    problem: &mut R,
    root: &mut Region,
    claim: &Claim<'_>,
    taken: &mut Vec<TakenSide>,
    best: &mut Picks,
    no_multipliers: &Multipliers,
) -> Result<(), Reason>
    // A tree for which there is room, and a set and a pick for each trip.
    requires accepted { R.IsWellPosed (R.problem problem.old) }
    requires room { length claim.now.tree.now ≤ vec_capacity taken.old }
    requires root { length root.old ≡ (R.meanings (R.problem problem.old)).trips }
    requires best { length best.old ≡ (R.meanings (R.problem problem.old)).trips }
    requires none { no_multipliers.now ≡ [] }
    requires taken { taken.old.items ≡ [] }
    // The claim is proved, or one of its tests is the first that fails.
    ensures passed { IfOk result (λ _. IsProvedClaim (R.meanings (R.problem problem.old)) root.old claim.now) }
    ensures reason { IfErr result (FirstFails (claim_tests (R.meanings (R.problem problem.old)) root.old claim.now)) }
    // What is left as it was.
    ensures root { root.new ≡ root.old }
    ensures problem { R.problem problem.new ≡ R.problem problem.old }
    ensures best { length best.new ≡ length best.old }
    ensures taken { taken.new.items ≡ [] }
    ensures room { vec_capacity taken.old ≤ vec_capacity taken.new }
{
    test_shape(claim.tree)?;
    test_branchings(claim)?;
    test_nodes(problem, root, claim.tree, taken, best, no_multipliers)?;
    test_picks(problem, root, &claim.head)?;
    test_head(claim.tree, &claim.head)
}
