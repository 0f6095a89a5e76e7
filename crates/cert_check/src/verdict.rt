//! What is said of a claim: that it is proved, or why it is not.

use rail_base::{Money, NodeNo};

/// Why a claim is not proved by its tree.
#[derive(Clone, Copy, PartialEq, Eq)]
pub enum Reason {
    /// The nodes are not one whole tree in preorder. The node is the first after a whole tree, or their number where
    /// there are too few.
    TreeShape(NodeNo),
    /// The tree has another number of branchings.
    BranchingsDiffer {
        /// How many the claim says.
        said: u32,
        /// How many there are.
        found: u32,
    },
    /// The cut of a branch is not proper in its region.
    NotProper(NodeNo),
    /// The multipliers of a leaf do not fit the problem.
    MultiplierIndex(NodeNo),
    /// A cost leaf has another bound than the chain value of its region.
    BoundDiffers {
        /// The leaf.
        node: NodeNo,
        /// Its bound.
        said: Money,
        /// The chain value, or nothing where no picks are near the region.
        found: Option<Money>,
    },
    /// The chain value of a ray leaf's region without cost is not positive, or there is none.
    RayNotPositive {
        /// The leaf.
        node: NodeNo,
        /// The chain value without cost, or nothing where no picks are near the region.
        found: Option<Money>,
    },
    /// Picks are near the region of an empty leaf.
    NotEmpty(NodeNo),
    /// The claim's picks are outside the root, do not follow, or are no solution.
    PicksFail,
    /// The claim's picks have another cost.
    CostDiffers {
        /// The cost that the claim says.
        said: Money,
        /// The cost that they have.
        found: Money,
    },
    /// A cost leaf leaves room for a solution that costs less than an optimal one.
    LeafBelowCost {
        /// The first such leaf.
        node: NodeNo,
        /// Its bound.
        bound: Money,
        /// The cost that the claim says.
        cost: Money,
    },
    /// There is a cost leaf, so that not every leaf says that it has no solution; this is the first.
    CostLeafLeft(NodeNo),
    /// The bound of the claim is not the least of the cost leaves' bounds.
    LeastBoundDiffers {
        /// The bound that the claim says.
        said: Money,
        /// The least one, or nothing where there is no cost leaf.
        found: Option<Money>,
    },
}

/// What a check says of a claim.
#[derive(Clone, Copy)]
pub enum Verdict {
    /// The claim's tree proves it.
    Valid,
    /// It does not; this is the first reason that holds.
    Invalid(Reason),
}
