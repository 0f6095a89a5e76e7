//! What a check finds of a fleet.

use rail_base::{Money, NoMemory};
use std::alloc::AllocFailed;

/// What a check finds of what was said of all fleets of a day: that it is so, or the first of these that holds. The
/// test of nodes is one, made node by node in preorder: of `SplitOutside` and `LeafFails` that of the earlier node
/// comes.
#[derive(Clone, Copy, Debug, PartialEq, Eq)]
pub enum FleetVerdict {
    /// Its boxes prove what it says, and its plan, where it has one, runs with its fleet at the price said.
    Valid,
    /// The nodes are not one whole tree in preorder. The node is the first after a whole tree, or their number where
    /// there are too few.
    TreeShape(u32),
    /// The split of this node does not part its box.
    SplitOutside(u32),
    /// The tree of this leaf does not prove what the leaf says of the greatest fleet of its box.
    LeafFails(u32),
    /// There is another number of splits.
    SplitsDiffer {
        /// How many are said.
        said: u32,
        /// How many there are.
        found: u32,
    },
    /// One of the chosen plan and a plan in the head is there without the other; or the chosen stock is no fleet of the
    /// day; or the chosen plan is no plan with it that runs.
    PlanFails,
    /// The chosen plan and its fleet cost another sum.
    PriceDiffers {
        /// What is said.
        said: Money,
        /// What they cost.
        found: Money,
    },
    /// What the head says does not follow from the leaves.
    HeadFails,
}

/// Why a check ends before all tests are passed.
pub(crate) enum Stop {
    /// This test is failed.
    Found(FleetVerdict),
    /// Want of memory.
    NoMemory,
}

impl From<NoMemory> for Stop {
    ghost use Rattle.std.specs.Prelude.{◌≡◌};
    ghost use Rattle.fleet_check.specs.declared.verdict.Stop.TheVariants as stops;

    ghost from_gives = { λ _ e. e ≡ stops.NoMemory };

    fn from(_error: NoMemory) -> Stop {
        Stop::NoMemory
    }
}

impl<T: Drop> From<AllocFailed<T>> for Stop {
    ghost use Rattle.std.specs.Prelude.{◌≡◌};
    ghost use Rattle.fleet_check.specs.declared.verdict.Stop.TheVariants as stops;

    ghost from_gives = { λ _ e. e ≡ stops.NoMemory };

    fn from(_error: AllocFailed<T>) -> Stop {
        Stop::NoMemory
    }
}
