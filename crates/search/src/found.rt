//! What a search finds.

use branch_tree::Tree;
use rail_base::Money;
use timetable::Picks;

/// A solution and its cost.
#[derive(Drop)]
pub struct Best {
    /// The solution.
    pub picks: Picks,
    /// Its cost.
    pub cost: Money,
}

/// What a search finds of all solutions in its root, and the tree that proves it.
#[derive(Drop)]
pub enum Found {
    /// These picks are a solution, and no solution costs less.
    Optimal {
        /// A solution.
        picks: Picks,
        /// Its cost.
        cost: Money,
        /// The tree, whose bounds are at least the cost.
        tree: Tree,
    },
    /// There is no solution.
    Infeasible {
        /// The tree, which has no bounds.
        tree: Tree,
    },
    /// All branchings that were granted are made, and a leaf is open.
    Bounded {
        /// A solution, where one was found.
        best: Option<Best>,
        /// No solution costs less.
        bound: Money,
        /// The tree, of whose bounds that is the least.
        tree: Tree,
    },
}
