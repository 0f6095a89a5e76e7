//! The edges of all links of a day.

ghost use Rattle.std.specs.Prelude.{ℕ, List, ◌≡◌, ◌<◌, ◌≤◌, ◌+◌, ◌↔◌, Some, None, length, slice_get, option_map, IfOk};
ghost use Rattle.std.specs.Prelude.{All, AllPairs, Contains};
ghost use Rattle.transitions.specs.Pairs.{AreAdmitted, IsKnown, HaveEdges, IsBeforePair};
ghost use Rattle.transitions.specs.declared.edge.Edge.{Edge};
ghost use Rattle.transitions.specs.declared.edge.Shunt.{Shunt};
ghost use Rattle.transitions.specs.Edges.{IsKindEdge, AreInOrder, AreEdges, AreGraphs, IsFound, IsAllowed};
ghost use Rattle.transitions.specs.Between.{IsBetween, AreEdgesBy, order_to};

use crate::allowed::{Admitted, admitted_on, edge_between};
use crate::edge::{Edge, Shunt};
use crate::pairs::{Pair, pairs_of};
use rail_base::{CompNo, LinkNo, NoMemory};
use std::alloc::Global;
use std::cmp::Ordering;
use std::marker::Model;
use timetable::{Instance, Link};

/// The edges of one link, in order. A contract sees the list of them.
#[derive(Drop)]
struct EdgeList {
    edges: Vec<Edge>,
}

impl Model for EdgeList {
    ghost use Rattle.std.specs.Prelude.{List};
    ghost use Rattle.transitions.specs.declared.edge.Edge.{Edge};
    ghost use Rattle.transitions.specs.Edges.{AreInOrder};

    ghost Value = { List Edge };

    ghost view = { λ a. a.edges.items };

    ghost invariant = { λ a. AreInOrder a.edges.items };
}

/// For each link of a day the edges that it allows. A contract sees a list for each link.
#[derive(Drop)]
pub struct Graphs {
    lists: Vec<EdgeList>,
}

impl Model for Graphs {
    ghost use Rattle.std.specs.Prelude.{List};
    ghost use Rattle.transitions.specs.declared.edge.Edge.{Edge};

    ghost Value = { List (List Edge) };

    ghost view = { λ a. a.lists.items };
}

impl Graphs {
    /// The edges of all links of a day. The error is want of memory.
    ///
    /// Of its way no clause speaks: for each link it looks at pairs of which one composition is the other or some of
    /// its units, one or two for each unit of each composition, and not at all pairs. Where a turn may exchange units
    /// it also looks at each composition that is some of another's units with one or two units more. An edge takes 20
    /// bytes, and the list of a link gives back the room that it does not need.
    pub fn build(alloc: Global, instance: &Instance) -> Result<Graphs, NoMemory>
        ensures { IfOk result (λ graphs. AreGraphs instance.now graphs) }
    {
        let mut lists = Vec::new(alloc);
        for link in 0..instance.links() {
            let edges = edges_of(alloc, instance, LinkNo(link))?;
            lists.push(edges)?;
        }
        Ok(Graphs { lists })
    }

    /// The edges that a link allows, by the composition that they go from and then by the one that they go to, each
    /// once. The link is below the number of links of the day.
    pub fn edges(&self, link: LinkNo) -> &[Edge]
        requires { link < length self.now }
        ensures value { slice_get self.now link ≡ Some result.now }
        ensures in_order { AreInOrder result.now }
    {
        self.lists[link.place()].items()
    }

    /// The edge of a link from one composition to another, or nothing where there is no such edge, by a binary search.
    /// The link is below the number of links of the day.
    pub fn find(&self, link: LinkNo, from: CompNo, to: CompNo) -> Option<Edge>
        requires { link < length self.now }
        ensures { (edge : Edge) → (result ≡ Some edge) ↔ IsFound self.now link from to edge }
    {
        find_edge(self.edges(link), from, to)
    }

    /// The shunt of the edge of a link from one composition to another, or nothing where there is no such edge. The
    /// link is below the number of links of the day.
    pub fn allowed(&self, link: LinkNo, from: CompNo, to: CompNo) -> Option<Shunt>
        requires { link < length self.now }
        ensures { (shunt : Shunt) → (result ≡ Some shunt) ↔ IsAllowed self.now link from to shunt }
    {
        shunt_of(self.find(link, from, to))
    }
}

/// The shunt of an edge, if there is one.
fn shunt_of(edge: Option<Edge>) -> Option<Shunt>
    ensures { result ≡ option_map (λ edge. edge.shunt) edge }
{
    match edge {
        Some(edge) => Some(edge.shunt),
        None => None,
    }
}

impl EdgeList {
    /// The edges.
    fn items(&self) -> &[Edge]
        ensures value { result.now ≡ self.now }
        ensures in_order { AreInOrder self.now }
    {
        &self.edges
    }
}

/// The edge between two compositions among edges in order, by a binary search.
fn find_edge(edges: &[Edge], from: CompNo, to: CompNo) -> Option<Edge>
    requires { AreInOrder edges.now }
    ensures { (edge : Edge) → (result ≡ Some edge) ↔ (Contains edges.now edge × IsBetween from to edge) }
{
    match edges.binary_search_by(|edge| order_to(edge, from, to)) {
        Ok(place) => Some(edges[place]),
        Err(_) => None,
    }
}

/// How an edge stands to two compositions in the order of edges: before them, between them or after them.
fn order_to(edge: &Edge, from: CompNo, to: CompNo) -> Ordering
    ensures { result ≡ order_to from to edge.now }
{
    edge.from.cmp(&from).then(edge.to.cmp(&to))
}

/// The edges that a link allows. The link is below the number of links.
fn edges_of(alloc: Global, instance: &Instance, link: LinkNo) -> Result<EdgeList, NoMemory>
    requires { link < length instance.now.links }
    ensures { IfOk result (λ edges. AreEdges instance.now link edges) }
{
    let link = instance.link(link);
    let admitted = admitted_on(alloc, instance, link.kind)?;
    let pairs = pairs_of(alloc, instance, link, &admitted)?;
    let mut edges = edges_between(alloc, instance, link, &admitted, &pairs)?;
    edges.shrink_to_fit();
    Ok(EdgeList { edges })
}

/// The edges that a link allows between the compositions of pairs, among which are those of each of its edges.
fn edges_between(
    alloc: Global,
    instance: &Instance,
    link: &Link,
    admitted: &Admitted,
    pairs: &[Pair],
) -> Result<Vec<Edge>, NoMemory>
    requires admitted { AreAdmitted instance.now link.now.kind admitted.now }
    requires known { All (IsKnown instance.now) pairs.now }
    requires edges { HaveEdges instance.now link.now.kind link.now.reverse pairs.now }
    requires in_order { AllPairs IsBeforePair pairs.now }
    ensures { IfOk result (λ edges. AreEdgesBy (IsKindEdge instance.now link.now.kind link.now.reverse) edges.items) }
{
    let mut edges = Vec::new(alloc);
    for pair in pairs {
        if let Some(edge) = edge_between(instance, link, admitted, pair) {
            edges.push(edge)?;
        }
    }
    Ok(edges)
}
