//! Claims: what is said of all solutions in a region, and the tree that is to prove it.

use crate::tree::Tree;
use rail_base::Money;
use timetable::Picks;

/// What a claim says of the solutions in a region.
#[derive(Drop)]
pub enum ClaimHead<'a> {
    /// These picks are a solution of this cost, and no solution costs less.
    Optimal {
        /// The cost of the picks.
        cost: Money,
        /// A solution.
        picks: &'a Picks,
    },
    /// There is no solution.
    Infeasible,
    /// No solution costs less than the bound.
    Bounded {
        /// The bound.
        bound: Money,
    },
    /// No solution costs less than the bound, and these picks are a solution of this cost.
    BoundedPlan {
        /// The bound.
        bound: Money,
        /// The cost of the picks.
        cost: Money,
        /// A solution.
        picks: &'a Picks,
    },
}

/// A claim and its tree.
#[derive(Drop)]
pub struct Claim<'a> {
    /// What is said.
    pub head: ClaimHead<'a>,
    /// How many branchings the tree is said to have.
    pub branchings: u32,
    /// The tree.
    pub tree: &'a Tree,
}
