//! A largest flow, made by sending one unit more for as long as the sink is within reach of the source.

ghost use Rattle.std.specs.Prelude.{ℕ, ◌≡◌, ◌≢◌, ◌<◌, ◌≤◌, ◌+◌, ◌^◌, length, map, true, false, IfOk, Some, None};
ghost use Rattle.std.specs.Prelude.{get_or, slice_set};
ghost use Rattle.flow_network.specs.Flows.{IsFlow, Net, empty};
ghost use Rattle.flow_network.specs.Steps.{IsReachedBy, has, has_residual, pushed, room_out, step_to, tail_of};
ghost use Rattle.flow_network.specs.declared.network.Arc.{Arc};

use crate::network::Arc;
use crate::reach::{Step, reach_all};
use rail_base::NoMemory;
use std::alloc::Global;

/// Sends one unit more from the source to the sink for as long as the sink is within reach: the steps to the nodes that
/// are reached in the end.
pub(crate) fn fill(
    alloc: Global,
    nodes: usize,
    source: usize,
    sink: usize,
    arcs: &mut [Arc],
) -> Result<Vec<Option<Step>>, NoMemory>
    requires flow { IsFlow (record { nodes = nodes; source = source; sink = sink; arcs = arcs.old }) }
    ensures flow { IsFlow (record { nodes = nodes; source = source; sink = sink; arcs = arcs.new }) }
    ensures same { map empty arcs.new ≡ map empty arcs.old }
    ensures reach { IfOk result (λ steps.
        IsReachedBy (record { nodes = nodes; source = source; sink = sink; arcs = arcs.new }) steps.items) }
    ensures sink { IfOk result (λ steps. step_to steps.items sink ≡ None) }
{
    let mut steps = reach_all(alloc, arcs, nodes, source)?;
    while steps[sink].is_some() {
        push(arcs, source, sink, &steps);
        steps = reach_all(alloc, arcs, nodes, source)?;
    }
    Ok(steps)
}

/// Sends one unit more from the source to the sink by the steps to it.
fn push(arcs: &mut [Arc], source: usize, sink: usize, steps: &[Option<Step>])
    requires flow { IsFlow (record { nodes = length steps.now; source = source; sink = sink; arcs = arcs.old }) }
    requires reach { IsReachedBy (record { nodes = length steps.now; source = source; sink = sink; arcs = arcs.old })
        steps.now }
    requires sink { has source steps.now sink ≡ true }
    ensures flow { IsFlow (record { nodes = length steps.now; source = source; sink = sink; arcs = arcs.new }) }
    ensures same { map empty arcs.new ≡ map empty arcs.old }
    ensures more { room_out source arcs.new + 1 ≡ room_out source arcs.old }
{
    let mut node = sink;
    while let Some(step) = steps[node] {
        node = push_over(arcs, step);
    }
}

/// Sends one unit more over the arc of a step: the node that it comes from.
fn push_over(arcs: &mut [Arc], step: Step) -> usize
    requires there { step.arc < length arcs.old }
    requires passes { (d : Arc) → has_residual step.is_along (get_or arcs.old step.arc d) ≡ true }
    requires within { (d : Arc) → (get_or arcs.old step.arc d).flow ≤ (get_or arcs.old step.arc d).capacity }
    ensures arcs { (d : Arc) →
        arcs.new ≡ slice_set arcs.old step.arc (pushed step.is_along (get_or arcs.old step.arc d)) }
    ensures tail { (d : Arc) → result ≡ tail_of step.is_along (get_or arcs.old step.arc d) }
{
    let arc = arcs[step.arc];
    arcs[step.arc] = arc.pushed(step.is_along);
    arc.tail(step.is_along)
}
