//! The boxes over which the trees of nodes are: that of a day, and those below a node.

ghost use Rattle.std.specs.Prelude.{◌≡◌, ◌++◌, ◌*◌, ◌+◌, ◌<◌, length, IfOk, reverse};
ghost use Rattle.fleet_boxes.specs.Boxes.{box_of};
ghost use Rattle.fleet_boxes.specs.ProvedBoxes.{IsProvedAt, boxes_below};
ghost use Rattle.fleet_check.specs.Walks.{IsFittingBox};

use fleet_boxes::{BoxNode, FleetBox};
use fleets::{Counts, fleet_of};
use rail_base::{NoMemory, StationNo, TypeNo};
use std::alloc::Global;
use timetable::Instance;

/// The box of all fleets of a day: those that have nowhere more units than its stock at the start. The error is want of
/// memory.
pub fn box_of(alloc: Global, instance: &Instance) -> Result<FleetBox, NoMemory>
    ensures all { IfOk result (λ fleets. fleets ≡ box_of instance.now) }
    ensures fits { IfOk result (λ fleets. IsFittingBox instance.now fleets) }
{
    // What is known of an accepted day.
    instance.is_sound();
    let greatest = fleet_of(alloc, instance)?;
    let least = Counts::none(alloc, greatest.len())?;
    Ok(FleetBox { least, greatest })
}

/// The place of a station and a type of a day in its fleets.
pub fn place_of(instance: &Instance, station: StationNo, unit_type: TypeNo) -> u32
    requires station { station < length instance.now.stations }
    requires unit_type { unit_type < length instance.now.types }
    ensures { result ≡ station * length instance.now.types + unit_type }
{
    // There are so few stations.
    prove!(station.0 < instance.stations());
    station.0 * instance.types().len() + unit_type.0
}

/// Puts the boxes below a node, of which it was proved what it says in its box, behind those that wait, so that the
/// first of them is the last of all. The error is want of memory.
pub(crate) fn wait_for_parts(
    alloc: Global,
    instance: &Instance,
    node: &BoxNode,
    fleets: &FleetBox,
    waiting: &mut Vec<FleetBox>,
) -> Result<(), NoMemory>
    requires { IsProvedAt instance.now fleets.now node.now }
    ensures { IfOk result (λ _. reverse waiting.new.items ≡
        boxes_below (length instance.now.types) fleets.now node.now ++ reverse waiting.old.items) }
{
    match node {
        BoxNode::Split {
            station,
            unit_type,
            at,
        } => {
            let place = place_of(instance, *station, *unit_type);
            waiting.push(fleets.upper(alloc, place, *at)?)?;
            waiting.push(fleets.lower(alloc, place, *at)?)?;
            Ok(())
        }
        BoxNode::Bound { .. } | BoxNode::Nothing { .. } => Ok(()),
    }
}
