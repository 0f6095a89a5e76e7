//! The nodes of a search: those that will not change, and those that may yet be branched.

ghost use Rattle.std.specs.Prelude.{ℕ, ◌≡◌, ◌<◌, length, IfOk, IsTrue};
ghost use Rattle.branch_tree.specs.Cuts.{IsProper};
ghost use Rattle.branch_tree.specs.Regions.{IsSingle, are_in, has};
ghost use Rattle.search.specs.Frontiers.{has_rank};
ghost use Rattle.search.specs.Nodes.{IsDivision, IsFirstDivisible, IsOwnCut, tree_node};

use branch_tree::{Cut, Multipliers, Node, Region, Side};
use compositions::Catalogue;
use rail_base::{Money, NoMemory, TripNo};
use std::alloc::Global;
use timetable::Picks;

/// A leaf that may be branched, with what that takes.
#[derive(Drop)]
pub(crate) struct PendingNode {
    /// How many nodes were made before it.
    pub number: u32,
    /// Its region.
    pub region: Region,
    /// The greatest of the least priced values that were found for it.
    pub bound: Money,
    /// The multipliers that gave it.
    pub multipliers: Multipliers,
    /// The picks that were chosen under them.
    pub picks: Picks,
    /// The cut that was proposed last.
    pub cut: Option<Cut>,
}

/// A node of a search.
#[derive(Drop)]
pub(crate) enum SearchNode {
    /// A node that stays as it is.
    Fixed(Node),
    /// A leaf that may be branched.
    Pending(PendingNode),
}

/// What a branching makes of a node.
#[derive(Drop)]
pub(crate) struct Division {
    /// The cut.
    pub cut: Cut,
    /// The region on its left side.
    pub left: Region,
    /// The region on its right side.
    pub right: Region,
    /// The multipliers that both children inherit.
    pub multipliers: Multipliers,
}

/// A node that is to be made.
#[derive(Drop)]
pub(crate) struct NewNode<'a> {
    /// At which place it is to be put among the nodes in preorder.
    pub place: usize,
    /// How many nodes were made before it.
    pub number: u32,
    /// Its region.
    pub region: Region,
    /// The multipliers that it inherits.
    pub inherited: &'a Multipliers,
}

impl SearchNode {
    /// Whether the node is a leaf that may be branched and has this bound and number.
    pub(crate) fn has_rank(&self, bound: Money, number: u32) -> bool
        ensures { result ≡ has_rank bound number self.now }
    {
        match self {
            SearchNode::Pending(node) => node.bound.0 == bound.0 && node.number == number,
            SearchNode::Fixed(_) => false,
        }
    }

    /// The node as it stands in a tree.
    pub(crate) fn into_tree_node(self) -> Node
        ensures { result ≡ tree_node self }
    {
        match self {
            SearchNode::Fixed(node) => node,
            SearchNode::Pending(
                PendingNode {
                    bound,
                    multipliers,
                    ..
                },
            ) => { Node::CostLeaf { bound, multipliers } }
        }
    }
}

impl PendingNode {
    /// Divides the node by the cut that `proper_cut` answers. The error is want of memory.
    pub(crate) fn divide(&self, alloc: Global, catalogue: &Catalogue) -> Result<Division, NoMemory>
        requires inside { IsTrue (are_in self.now.picks self.now.region) }
        requires divisible { IsSingle self.now.region → ⊥ }
        requires within { (trip comp : ℕ) → IsTrue (has self.now.region trip comp) → comp < length catalogue.now }
        ensures { IfOk result (IsDivision catalogue.now self.now) }
    {
        let cut = self.proper_cut(catalogue);
        let mut left = self.region.copy(alloc)?;
        left.cut(catalogue, &cut, Side::Left);
        let mut right = self.region.copy(alloc)?;
        right.cut(catalogue, &cut, Side::Right);
        let multipliers = self.multipliers.copy(alloc)?;
        Ok(Division {
            cut,
            left,
            right,
            multipliers,
        })
    }

    /// The cut that was proposed last, where it is proper; else that of the first trip with more than one composition,
    /// by its pick.
    fn proper_cut(&self, catalogue: &Catalogue) -> Cut
        requires inside { IsTrue (are_in self.now.picks self.now.region) }
        requires divisible { IsSingle self.now.region → ⊥ }
        requires within { (trip comp : ℕ) → IsTrue (has self.now.region trip comp) → comp < length catalogue.now }
        ensures proper { IsProper catalogue.now self.now.region result }
        ensures own { IsOwnCut catalogue.now self.now result }
    {
        if let Some(cut) = self.cut {
            if self.region.is_proper(catalogue, &cut) {
                return cut;
            }
        }
        let trip = self.divisible_trip();
        Cut::Only {
            trip,
            comp: self.picks.get(trip),
        }
    }

    /// The first trip with more than one composition.
    fn divisible_trip(&self) -> TripNo
        requires inside { IsTrue (are_in self.now.picks self.now.region) }
        requires divisible { IsSingle self.now.region → ⊥ }
        ensures { IsFirstDivisible self.now.region result }
    {
        for trip in 0..self.region.trips() {
            if self.region.size(TripNo(trip)) > 1 {
                return TripNo(trip);
            }
        }
        unreachable!()
    }
}
