//! Which nodes are within reach of the source, and by which steps.

ghost use Rattle.std.specs.Prelude.{ℕ, ◌≡◌, ◌<◌, ◌≤◌, ◌^◌, length, true, false, IfOk, Option, Bool};
ghost use Rattle.std.specs.Prelude.{is_none, get_or};
ghost use Rattle.std.specs.List.{All, count_by};
ghost use Rattle.flow_network.specs.declared.network.Arc.{Arc};
ghost use Rattle.flow_network.specs.Steps.{AreFewer, CanReach, Closes, ClosesBoth, IsReachedBy, IsReaching, has};
ghost use Rattle.flow_network.specs.Steps.{head_of, has_residual, pushed, tail_of};

use crate::network::Arc;
use rail_base::NoMemory;
use std::alloc::Global;

/// The last step to a node.
#[derive(Clone, Copy)]
pub(crate) struct Step {
    /// The number of the arc that it goes over.
    pub(crate) arc: usize,
    /// Whether it goes along the arc, which then takes one unit more; else it goes against it, and the arc has one to
    /// give back.
    pub(crate) is_along: bool,
    /// How many nodes were reached before this one.
    pub(crate) rank: usize,
}

/// The nodes that were reached so far.
#[derive(Drop)]
pub(crate) struct Reach {
    /// For each node but the source the last step to it, if it was reached.
    pub(crate) steps: Vec<Option<Step>>,
    /// How many were reached, the source with them.
    pub(crate) found: usize,
}

/// The steps to all nodes that are within reach of the source.
pub(crate) fn reach_all(
    alloc: Global,
    arcs: &[Arc],
    nodes: usize,
    source: usize,
) -> Result<Vec<Option<Step>>, NoMemory>
    requires few { nodes < 2 ^ 32 }
    requires source { source < nodes }
    requires arcs { All (λ arc. (arc.from < nodes) × (arc.to < nodes)) arcs.now }
    ensures { (sink : ℕ) → IfOk result (λ steps.
        IsReachedBy (record { nodes = nodes; source = source; sink = sink; arcs = arcs.now }) steps.items) }
{
    let mut reach = Reach {
        steps: vec![in alloc; None; nodes]?,
        found: 1,
    };
    let mut goes_on = true;
    while goes_on {
        goes_on = pass(arcs, source, &mut reach);
    }
    Ok(reach.steps)
}

/// Goes over the arcs once in order, and reaches what they lead on to: whether that is a node more.
fn pass(arcs: &[Arc], source: usize, reach: &mut Reach) -> bool
    requires can { CanReach arcs.now source reach.old.steps.items reach.old.found }
    ensures reaching { IsReaching arcs.now (length reach.old.steps.items) source reach.new.steps.items reach.new.found }
    ensures fewer { AreFewer result reach.old.steps.items reach.new.steps.items }
    ensures none { result ≡ false → All (ClosesBoth source reach.new.steps.items) arcs.now }
{
    let mut more = false;
    for number in 0..arcs.len() {
        if extend_either(arcs, source, reach, number) {
            more = true;
        }
    }
    more
}

/// Reaches the node that an arc leads on to, along it or against it: whether that is a node more.
fn extend_either(arcs: &[Arc], source: usize, reach: &mut Reach, number: usize) -> bool
    requires can { CanReach arcs.now source reach.old.steps.items reach.old.found }
    requires number { number < length arcs.now }
    ensures reaching { IsReaching arcs.now (length reach.old.steps.items) source reach.new.steps.items reach.new.found }
    ensures fewer { AreFewer result reach.old.steps.items reach.new.steps.items }
    ensures same { result ≡ false → reach.new ≡ reach.old }
    ensures none { result ≡ false → (d : Arc) → ClosesBoth source reach.new.steps.items (get_or arcs.now number d) }
{
    if extend(arcs, source, reach, number, true) {
        return true;
    }
    extend(arcs, source, reach, number, false)
}

/// Reaches the node that a step over an arc comes to, where the node that it leaves is reached and the arc is open for
/// it: whether that is a node more.
fn extend(arcs: &[Arc], source: usize, reach: &mut Reach, number: usize, is_along: bool) -> bool
    requires can { CanReach arcs.now source reach.old.steps.items reach.old.found }
    requires number { number < length arcs.now }
    ensures reaching { IsReaching arcs.now (length reach.old.steps.items) source reach.new.steps.items reach.new.found }
    ensures fewer { AreFewer result reach.old.steps.items reach.new.steps.items }
    ensures same { result ≡ false → reach.new ≡ reach.old }
    ensures none { result ≡ false → (d : Arc) →
        Closes source reach.new.steps.items is_along (get_or arcs.now number d) }
{
    let arc = arcs[number];
    let tail = arc.tail(is_along);
    let head = arc.head(is_along);
    if has(source, &reach.steps, head)
        || !has(source, &reach.steps, tail)
        || !arc.has_residual(is_along)
    {
        return false;
    }
    reach.steps[head] = Some(Step {
        arc: number,
        is_along,
        rank: reach.found,
    });
    reach.found += 1;
    true
}

impl Arc {
    /// The node that a step leaves.
    pub(crate) fn tail(&self, is_along: bool) -> usize
        ensures { result ≡ tail_of is_along self.now }
    {
        if is_along { self.from } else { self.to }
    }

    /// The node that a step comes to.
    pub(crate) fn head(&self, is_along: bool) -> usize
        ensures { result ≡ head_of is_along self.now }
    {
        if is_along { self.to } else { self.from }
    }

    /// Whether the arc takes one unit more, or has one to give back.
    pub(crate) fn has_residual(&self, is_along: bool) -> bool
        ensures { result ≡ has_residual is_along self.now }
    {
        if is_along {
            self.flow < self.capacity
        } else {
            self.flow > 0
        }
    }

    /// The arc once one unit more is sent over it. It is open for that.
    pub(crate) fn pushed(self, is_along: bool) -> Arc
        requires passes { has_residual is_along self ≡ true }
        ensures { result ≡ pushed is_along self }
    {
        let flow = if is_along {
            self.flow + 1
        } else {
            self.flow - 1
        };
        Arc { flow, ..self }
    }
}

/// Whether a node is reached.
pub(crate) fn has(source: usize, steps: &[Option<Step>], node: usize) -> bool
    requires { node < length steps.now }
    ensures { result ≡ has source steps.now node }
{
    node == source || steps[node].is_some()
}
