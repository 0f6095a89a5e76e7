//! Trees of cuts: a flat list of nodes in preorder.

ghost use Rattle.std.specs.Prelude.{◌≡◌, ◌<◌, ◌≤◌, ◌++◌, [], ◌∷◌, length, slice_get, Some, IfOk, OnOk, OnErr};
ghost use Rattle.branch_tree.specs.Entries.{AreMultipliers};
ghost use Rattle.branch_tree.specs.LeastBounds.{least_of, lower_of};
ghost use Rattle.branch_tree.specs.Trees.{IsLeastOf, KeepLimits, bound_of, bounds_of, branchings_of, cut_of};
ghost use Rattle.branch_tree.specs.Trees.{multipliers_of};

use crate::cuts::Cut;
use crate::multipliers::Multipliers;
use rail_base::limits::MAX_NODES;
use rail_base::{Money, NoMemory, NodeNo};
use std::alloc::Global;
use std::marker::Model;

/// A node of a tree over a region.
#[derive(Drop)]
pub enum Node {
    /// The region is divided; the left subtree comes next, and then the right one.
    Branch(Cut),
    /// Says that no solution in the region costs less than the bound.
    CostLeaf {
        /// The least priced value of the picks near the region, with their cost.
        bound: Money,
        /// The multipliers that give it.
        multipliers: Multipliers,
    },
    /// Says that the region has no solution, since the least priced value without cost is positive.
    RayLeaf {
        /// The multipliers that give it.
        multipliers: Multipliers,
    },
    /// Says that the region has no solution, since no picks are near it.
    EmptyLeaf,
}

impl Node {
    /// The cut of a branch, or nothing at a leaf.
    pub fn cut(&self) -> Option<Cut>
        ensures { result ≡ cut_of self.now }
    {
        match self {
            Node::Branch(cut) => Some(*cut),
            _ => None,
        }
    }

    /// The bound of a cost leaf, or nothing at another node.
    pub fn bound(&self) -> Option<Money>
        ensures { result ≡ bound_of self.now }
    {
        match self {
            Node::CostLeaf { bound, .. } => Some(*bound),
            _ => None,
        }
    }

    /// Tells what is known of the multipliers of a leaf; it does nothing.
    fn multipliers_within(&self)
        ensures { AreMultipliers (multipliers_of self.now) }
    {
        match self {
            Node::CostLeaf { multipliers, .. } | Node::RayLeaf { multipliers } => {
                multipliers.len();
            }
            Node::Branch(_) | Node::EmptyLeaf => {}
        }
    }
}

/// At most 8,001 nodes in preorder. A contract sees the list of them.
#[derive(Drop)]
pub struct Tree {
    nodes: Vec<Node>,
}

impl Model for Tree {
    ghost use Rattle.std.specs.Prelude.{List, length, ◌≤◌};
    ghost use Rattle.branch_tree.specs.declared.tree.Node.{Node};
    ghost use Rattle.rail_base.specs.declared.limits.TheConstants.{MAX_NODES};

    ghost Value = { List Node };

    ghost view = { λ a. a.nodes.items };

    ghost invariant = { λ a. length a.nodes.items ≤ MAX_NODES };
}

impl Tree {
    /// No nodes. The error is want of memory.
    pub fn new(alloc: Global) -> Result<Tree, NoMemory>
        ensures { IfOk result (λ tree. tree ≡ []) }
    {
        Ok(Tree {
            nodes: Vec::new(alloc),
        })
    }

    /// Adds a node at the end; fewer than 8,001 are there. On `NoMemory` the tree is as before.
    pub fn push(&mut self, node: Node) -> Result<(), NoMemory>
        requires { length self.old < MAX_NODES }
        ensures pushed { OnOk result (self.new ≡ self.old ++ node ∷ []) }
        ensures unchanged { OnErr result (self.new ≡ self.old) }
    {
        self.nodes.push(node)?;
        Ok(())
    }

    /// How many nodes there are.
    pub fn len(&self) -> u32
        ensures value { result ≡ length self.now }
        ensures few { result ≤ MAX_NODES }
    {
        self.nodes.len() as u32
    }

    /// The node of a number, which is below `len`. The multipliers of a leaf have indices that rise and values that are
    /// not 0, and keep within the limits of such lists.
    pub fn node(&self, node: NodeNo) -> &Node
        requires { node < length self.now }
        ensures value { slice_get self.now node ≡ Some result.now }
        ensures within { AreMultipliers (multipliers_of result.now) }
    {
        let node = &self.nodes[node.place()];
        node.multipliers_within();
        node
    }

    /// How many nodes are branches. The multipliers of each leaf have indices that rise and values that are not 0, and
    /// keep within the limits of such lists.
    pub fn branchings(&self) -> u32
        ensures value { result ≡ branchings_of self.now }
        ensures within { KeepLimits self.now }
    {
        let mut branchings = 0;
        for number in 0..self.len() {
            let node = self.node(NodeNo(number));
            branchings += u32::from(node.cut().is_some());
        }
        branchings
    }

    /// The least of the bounds of the cost leaves, or nothing where there is no cost leaf.
    pub fn least_bound(&self) -> Option<Money>
        ensures { IsLeastOf (bounds_of self.now) result }
    {
        let mut least = None;
        for number in 0..self.len() {
            least = least_of(least, self.node(NodeNo(number)).bound());
        }
        least
    }
}

/// The lower of two bounds, each of which may be missing.
fn least_of(least: Option<Money>, bound: Option<Money>) -> Option<Money>
    ensures { result ≡ least_of least bound }
{
    match (least, bound) {
        (least, None) => least,
        (None, Some(bound)) => Some(bound),
        (Some(least), Some(bound)) => Some(lower_of(least, bound)),
    }
}

/// The lower of two bounds.
fn lower_of(least: Money, bound: Money) -> Money
    ensures { result ≡ lower_of least bound }
{
    if bound.0 < least.0 { bound } else { least }
}
