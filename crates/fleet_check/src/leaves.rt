//! What the leaves of boxes say together.

ghost use Rattle.std.specs.Prelude.{ℕ, ◌≡◌, ◌≤◌, ◌<◌, ◌+◌, ◌++◌, ◌∷◌, [], length, List, ℤ, pos, ◌+ℤ◌};
ghost use Rattle.timetable.specs.Accepted.{IsSoundDay};
ghost use Rattle.branch_tree.specs.Claims.{IsProved, bounded};
ghost use Rattle.branch_tree.specs.Regions.{root_of};
ghost use Rattle.branch_tree.specs.Trees.{IsLeast, IsLeastOf};
ghost use Rattle.price_bound.specs.DayMeanings.{meanings_of};
ghost use Rattle.fleets.specs.Fleets.{with_fleet};
ghost use Rattle.fleet_boxes.specs.Prices.{fleet_cost};
ghost use Rattle.fleet_boxes.specs.ProvedBoxes.{IsProvedAt, values_in};
ghost use Rattle.fleet_check.specs.declared.found.TheConstants.{MAX_BOX_NODES};
ghost use Rattle.fleet_check.specs.Verdicts.{splits_in};
ghost use Rattle.fleet_check.specs.Walks.{IsFittingBox};

use crate::amounts::with_units;
use crate::found::MAX_BOX_NODES;
use branch_tree::Tree;
use fleet_boxes::{BoxNode, FleetBox, Prices};
use rail_base::Money;
use timetable::Instance;

/// What the leaves of boxes say together.
#[derive(Clone, Copy)]
pub(crate) struct Leaves {
    /// How many splits there are.
    pub(crate) splits: u32,
    /// The least value of the leaves with a bound, if there is one.
    pub(crate) least: Option<Money>,
}

/// What the leaves say with one node more, of which it was proved what it says in its box.
pub(crate) fn with_node(
    instance: &Instance,
    prices: &Prices,
    leaves: Leaves,
    node: &BoxNode,
    fleets: &FleetBox,
) -> Leaves
    requires prices { length prices.now ≡ length instance.now.types }
    requires fits { IsFittingBox instance.now fleets.now }
    requires proved { IsProvedAt instance.now fleets.now node.now }
    requires few { leaves.splits < MAX_BOX_NODES }
    ensures splits { result.splits ≡ leaves.splits + splits_in (node.now ∷ []) }
    ensures least { (values : List ℤ) → IsLeastOf values leaves.least → IsLeastOf
        (values ++ values_in (length instance.now.types) prices.now (fleets.now ∷ []) (node.now ∷ [])) result.least }
{
    match node {
        BoxNode::Split { .. } => Leaves {
            splits: leaves.splits + 1,
            least: leaves.least,
        },
        BoxNode::Bound { bound, tree, .. } => Leaves {
            splits: leaves.splits,
            least: lesser(
                leaves.least,
                value_of(instance, prices, *bound, tree, fleets),
            ),
        },
        BoxNode::Nothing { .. } => leaves,
    }
}

/// What every plan of the fleets of a leaf's box costs at the least, with its units.
fn value_of(
    instance: &Instance,
    prices: &Prices,
    bound: Money,
    tree: &Tree,
    fleets: &FleetBox,
) -> Money
    requires prices { length prices.now ≡ length instance.now.types }
    requires fits { IsFittingBox instance.now fleets.now }
    requires proved { (branchings : ℕ) × IsProved (meanings_of (with_fleet fleets.now.greatest instance.now))
        (root_of (with_fleet fleets.now.greatest instance.now)) (bounded bound.0) branchings tree.now }
    ensures { result.0 ≡ bound.0 +ℤ pos (fleet_cost prices.now fleets.now.least) }
{
    // What is known of an accepted day and of a tree, so that the bound is small.
    instance.is_sound();
    let _ = tree.branchings();
    with_units(bound, prices.of_fleet(&fleets.least))
}

/// The lesser of the least of some amounts, which is lacking where there are none, and one more.
fn lesser(least: Option<Money>, value: Money) -> Option<Money>
    ensures { (values : List ℤ) → IsLeastOf values least → IsLeastOf (values ++ value.0 ∷ []) result }
{
    match least {
        Some(least) => Some(lower_of(least, value)),
        None => Some(value),
    }
}

/// The lower of the least of some amounts and one more.
fn lower_of(least: Money, value: Money) -> Money
    ensures { (values : List ℤ) → IsLeast values least.0 → IsLeast (values ++ value.0 ∷ []) result.0 }
{
    if least.0 <= value.0 { least } else { value }
}
