//! A network of nodes and arcs, and a largest flow through it.

ghost use Rattle.std.specs.Prelude.{ℕ, ◌≡◌, ◌≢◌, ◌<◌, ◌++◌, ◌∷◌, ◌^◌, [], length, IfOk, OnErr, OnOk, slice_get, Some};
ghost use Rattle.std.specs.Prelude.{true};
ghost use Rattle.flow_network.specs.Flows.{IsFlow, IsReach, IsSameNet, is_reached};
ghost use Rattle.flow_network.specs.Steps.{has};

use crate::filling::fill;
use crate::reach::{Step, has};
use rail_base::NoMemory;
use std::alloc::Global;
use std::marker::Model;

/// An arc, along which units go from one node to another.
#[derive(Clone, Copy, PartialEq, Eq)]
pub struct Arc {
    /// The node that it leaves.
    pub from: usize,
    /// The node that it comes to.
    pub to: usize,
    /// How many units may go along it.
    pub capacity: u32,
    /// How many go along it.
    pub flow: u32,
}

/// For each node whether it is within reach of the source. A contract sees the list of them.
#[derive(Drop)]
pub struct Reached {
    nodes: Vec<bool>,
}

impl Model for Reached {
    ghost use Rattle.std.specs.Prelude.{List, Bool};

    ghost Value = { List Bool };

    ghost view = { λ a. a.nodes.items };
}

impl Reached {
    /// Whether a node is reached. There is such a node.
    pub fn has(&self, node: usize) -> bool
        requires { node < length self.now }
        ensures { result ≡ is_reached self.now node }
    {
        self.nodes[node]
    }
}

/// A network with a flow through it: its nodes are numbered from 0, two of them are its source and its sink, and no arc
/// comes to the source. Along no arc go more units than may, and but for the source and the sink as many units leave a
/// node as come to it. A contract sees how many nodes there are, which are the source and the sink, and the arcs in the
/// order in which they were added.
#[derive(Drop)]
pub struct Network {
    nodes: usize,
    source: usize,
    sink: usize,
    arcs: Vec<Arc>,
}

impl Model for Network {
    ghost use Rattle.flow_network.specs.Flows.{Net};

    ghost Value = { Net };

    ghost use Rattle.flow_network.specs.NetworkParts.{net_in, Holds};

    ghost view = { net_in };

    ghost invariant = { Holds };
}

impl Network {
    /// A network of so many nodes without arcs. The source and the sink are two of its nodes, and there are fewer than
    /// 2^32.
    pub fn new(alloc: Global, nodes: usize, source: usize, sink: usize) -> Network
        requires few { nodes < 2 ^ 32 }
        requires source { source < nodes }
        requires sink { sink < nodes }
        requires apart { sink ≢ source }
        ensures { result ≡ record { nodes = nodes; source = source; sink = sink; arcs = [] } }
    {
        Network {
            nodes,
            source,
            sink,
            arcs: Vec::new(alloc),
        }
    }

    /// Adds an arc along which nothing goes. Its nodes are of the network, and it doesn't come to the source. The error
    /// is want of memory, and leaves the network as it was.
    pub fn add(&mut self, from: usize, to: usize, capacity: u32) -> Result<(), NoMemory>
        requires from { from < self.old.nodes }
        requires to { to < self.old.nodes }
        requires not_to_source { to ≢ self.old.source }
        ensures added { OnOk result (self.new ≡ record self.old {
          arcs = self.old.arcs
              ++ record { from = from; to = to; capacity = capacity; flow = 0 } ∷ [];
        }) }
        ensures unchanged { OnErr result (self.new ≡ self.old) }
    {
        self.arcs.push(Arc {
            from,
            to,
            capacity,
            flow: 0,
        })?;
        Ok(())
    }

    /// The arcs in the order in which they were added, each with what goes along it.
    pub fn arcs(&self) -> &[Arc]
        ensures value { result.now ≡ self.now.arcs }
        ensures flow { IsFlow self.now }
    {
        self.arcs.as_slice()
    }

    /// Makes the flow from the source to the sink as large as it can be, and tells a set of nodes with the source and
    /// without the sink from which no arc leads on: along it where it takes one unit more, or against it where it has
    /// one to give back. So what may go from these nodes to the others bounds each flow, and all of it goes. The error
    /// is want of memory; the network has some flow then.
    ///
    /// It sends one unit at a time, and goes over all arcs for each, up to as often as there are nodes, so it is for
    /// flows of some hundred units.
    pub fn fill(&mut self, alloc: Global) -> Result<Reached, NoMemory>
        ensures same { IsSameNet self.old self.new }
        ensures flow { IsFlow self.new }
        ensures reach { IfOk result (IsReach self.new) }
    {
        let steps = fill(alloc, self.nodes, self.source, self.sink, &mut self.arcs)?;
        let nodes = reached_nodes(alloc, self.source, &steps)?;
        Ok(Reached { nodes })
    }
}

/// For each node whether it is reached.
fn reached_nodes(
    alloc: Global,
    source: usize,
    steps: &[Option<Step>],
) -> Result<Vec<bool>, NoMemory>
    requires { source < length steps.now }
    ensures long { IfOk result (λ nodes. length nodes.items ≡ length steps.now) }
    ensures each { IfOk result (λ nodes. (n : ℕ) → n < length steps.now →
        is_reached nodes.items n ≡ has source steps.now n) }
{
    let mut nodes = Vec::new(alloc);
    for node in 0..steps.len() {
        nodes.push(has(source, steps, node))?;
    }
    Ok(nodes)
}
