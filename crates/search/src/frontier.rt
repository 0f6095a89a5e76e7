//! The frontier of a search: which of its open nodes is branched next.

ghost use Rattle.std.specs.Prelude.{◌≡◌, ◌<◌, true, false, length, get_or, All, IfSome, MatchOption, OnOk, Option};
ghost use Rattle.std.specs.BTreeMap.{ContainsKey, IsEmpty, IsLowerBound};
ghost use Rattle.branch_tree.specs.Claims.{CostedPicks};
ghost use Rattle.search.specs.Frontiers.{HasLeastRank, IsEntered, IsOpenAt, is_open_node, has_rank, rank_order};
ghost use Rattle.search.specs.Conclusions.{plan_in};
ghost use Rattle.search.specs.declared.nodes.SearchNode.{SearchNode};

use crate::evaluation::is_below;
use crate::found::Best;
use crate::nodes::SearchNode;
use rail_base::{Money, NoMemory};
use std::alloc::Global;
use std::collections::BTreeMap;

/// The nodes that may be branched, each by its rank: its bound, and then its number.
#[derive(Drop)]
pub(crate) struct Frontier {
    /// The ranks in order. That of a node which was branched stays until it comes first.
    ranks: BTreeMap<(Money, u32), ()>,
}

impl Frontier {
    /// A frontier with no nodes.
    pub(crate) fn new(alloc: Global) -> Frontier
        ensures { IsEmpty result.ranks }
    {
        Frontier {
            ranks: BTreeMap::new(alloc),
        }
    }

    /// Enters a node, where it may be branched. The error is want of memory.
    pub(crate) fn enter(&mut self, node: &SearchNode) -> Result<(), NoMemory>
        ensures node { OnOk result ((best : Option CostedPicks) → IsEntered best self.new node.now) }
        ensures others { OnOk result ((best : Option CostedPicks) (other : SearchNode) →
            IsEntered best self.old other → IsEntered best self.new other) }
    {
        if let SearchNode::Pending(node) = node {
            self.ranks.insert((node.bound, node.number), ())?;
        }
        Ok(())
    }

    /// The place of the open node of the least bound, the one made earliest of these, or nothing where no node is open.
    pub(crate) fn next_open(&mut self, nodes: &[SearchNode], best: &Option<Best>) -> Option<usize>
        requires entered { All (IsEntered (plan_in best.now) self.old) nodes.now }
        ensures entered { All (IsEntered (plan_in best.now) self.new) nodes.now }
        ensures next { MatchOption result (All (λ node. is_open_node (plan_in best.now) node ≡ false) nodes.now)
            (IsOpenAt (plan_in best.now) nodes.now) }
        ensures least { IfSome result (HasLeastRank (plan_in best.now) nodes.now) }
    {
        while let Some((bound, number)) = self.first() {
            if is_below(bound, best) {
                if let Some(place) = place_of(nodes, bound, number) {
                    return Some(place);
                }
            }
            self.ranks.remove(&(bound, number));
        }
        None
    }

    /// The least rank, where there is one.
    fn first(&self) -> Option<(Money, u32)>
        ensures rank { MatchOption result (IsEmpty self.now.ranks) (ContainsKey rank_order self.now.ranks) }
        ensures least { IfSome result (IsLowerBound rank_order self.now.ranks) }
    {
        match self.ranks.first_key_value() {
            Some((rank, _)) => Some(*rank),
            None => None,
        }
    }
}

/// The place of a node of this rank, where there is one.
fn place_of(nodes: &[SearchNode], bound: Money, number: u32) -> Option<usize>
    ensures { MatchOption result (All (λ node. has_rank bound number node ≡ false) nodes.now)
        (λ place. (place < length nodes.now) × ((node : SearchNode) →
        has_rank bound number (get_or nodes.now place node) ≡ true)) }
{
    for place in 0..nodes.len() {
        if nodes[place].has_rank(bound, number) {
            return Some(place);
        }
    }
    None
}
