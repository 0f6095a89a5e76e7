//! Trees of boxes: a flat list of nodes in preorder.

ghost use Rattle.std.specs.Prelude.{◌≡◌};

use branch_tree::Tree;
use rail_base::{Money, StationNo, TypeNo};
use std::marker::Model;

/// A node of a tree over a box of fleets.
#[derive(Drop)]
pub enum BoxNode {
    /// The box is parted: the tree over the fleets with at most so many units of a type at a station comes next, and
    /// then that over the fleets with more.
    Split {
        /// The station.
        station: StationNo,
        /// The type of the units.
        unit_type: TypeNo,
        /// The most units there in the first part.
        at: u32,
    },
    /// Says that no plan with the greatest fleet of the box costs less than the bound.
    Bound {
        /// The bound: the least of the tree's cost leaves.
        bound: Money,
        /// How many branchings the tree has.
        branchings: u32,
        /// The tree that proves it.
        tree: Tree,
    },
    /// Says that no plan runs with the greatest fleet of the box.
    Nothing {
        /// How many branchings the tree has.
        branchings: u32,
        /// The tree that proves it.
        tree: Tree,
    },
}

/// Nodes in preorder. A contract sees the list of them.
#[derive(Drop)]
pub struct Boxes {
    nodes: Vec<BoxNode>,
}

impl Model for Boxes {
    ghost use Rattle.std.specs.Prelude.{List};
    ghost use Rattle.fleet_boxes.specs.declared.nodes.BoxNode.{BoxNode};

    ghost Value = { List BoxNode };

    ghost view = { λ a. a.nodes.items };
}

impl Boxes {
    /// These nodes. It takes no memory.
    pub fn of(nodes: Vec<BoxNode>) -> Boxes
        ensures { result ≡ nodes.items }
    {
        Boxes { nodes }
    }

    /// The nodes in preorder. It takes no memory.
    pub fn items(&self) -> &[BoxNode]
        ensures { result.now ≡ self.now }
    {
        self.nodes.as_slice()
    }
}
