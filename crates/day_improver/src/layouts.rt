//! The layout of a day's multipliers.

ghost use Rattle.std.specs.Prelude.{◌<◌, length};
ghost use Rattle.transitions.specs.Edges.{AreGraphs};

use ascent::Layout;
use inventory::place_of;
use rail_base::{NoMemory, StationNo, TripNo};
use std::alloc::Global;
use timetable::Instance;
use transitions::{Graphs, Shunt};

/// The layout of a day with its edges. The graphs are those of the day. The error is want of memory.
pub(crate) fn layout_of(
    alloc: Global,
    instance: &Instance,
    graphs: &Graphs,
) -> Result<Layout, NoMemory>
    requires { AreGraphs instance.now graphs.now }
{
    let types = instance.types().len() as usize;
    let yards = (instance.stations() as usize).saturating_mul(types);
    let mut layout = Layout::new(
        alloc,
        instance.free_from() as usize,
        yards,
        instance.indices() as usize,
    )?;
    add_yards(&mut layout, instance, types)?;
    for trip in 0..instance.trips() {
        mark_given(&mut layout, instance, graphs, TripNo(trip));
    }
    Ok(layout)
}

/// Adds all stations with so many types. The error is want of memory.
fn add_yards(layout: &mut Layout, instance: &Instance, types: usize) -> Result<(), NoMemory> {
    for station in 0..instance.stations() {
        let places = instance.minutes(StationNo(station)).len();
        for _ in 0..types {
            layout.add_yard(places)?;
        }
    }
    Ok(())
}

/// Marks the departure minute before that at which what a trip gives is ready.
fn mark_given(layout: &mut Layout, instance: &Instance, graphs: &Graphs, trip: TripNo)
    requires graphs { AreGraphs instance.now graphs.now }
    requires trip { trip < length instance.now.trips }
{
    if !may_give(instance, graphs, trip) {
        return;
    }
    let types = instance.types().len() as usize;
    let to = instance.trip(trip).to;
    let place = place_of(instance.minutes(to), instance.ready_at(trip));
    for unit_type in 0..types {
        let yard = to.place().saturating_mul(types).saturating_add(unit_type);
        layout.mark_before(yard, place);
    }
}

/// Whether a trip may give units to the yard where it arrives: no link leads on from it, or one that uncouples.
fn may_give(instance: &Instance, graphs: &Graphs, trip: TripNo) -> bool
    requires graphs { AreGraphs instance.now graphs.now }
    requires trip { trip < length instance.now.trips }
{
    let Some(link) = instance.outgoing(trip) else {
        return true;
    };
    for edge in graphs.edges(link) {
        match edge.shunt {
            Shunt::Uncouple { .. } | Shunt::Exchange { .. } => return true,
            Shunt::Keep | Shunt::Couple { .. } => {}
        }
    }
    false
}
