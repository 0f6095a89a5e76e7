//! Rays: multipliers under which every solution would cost more than any sum, where a type of units cannot balance.

ghost use Rattle.std.specs.Prelude.{◌<◌, length};
ghost use Rattle.timetable.specs.Handovers.{handovers_of};

use branch_tree::Multipliers;
use improvers::Improvement;
use rail_base::{CompNo, NoMemory, StationNo, TypeNo};
use std::alloc::Global;
use timetable::{Instance, Place};

/// Proposes multipliers for the first type of which the wanted ends are not as many as the starts, and tells whether
/// there is one. The error is want of memory.
pub(crate) fn put_ray(
    alloc: Global,
    instance: &Instance,
    to: &mut Improvement,
) -> Result<bool, NoMemory> {
    for unit_type in 0..instance.types().len() {
        let difference = difference_of(instance, TypeNo(unit_type));
        if difference != 0 {
            let sign = if difference > 0 { 1 } else { -1 };
            to.multipliers = Some(ray_of(alloc, instance, TypeNo(unit_type), sign)?);
            return Ok(true);
        }
    }
    Ok(false)
}

/// How many more units of a type are wanted at the end than there are at the start, at all stations together.
fn difference_of(instance: &Instance, unit_type: TypeNo) -> i64 {
    let mut sum: i64 = 0;
    for station in 0..instance.stations() {
        let wanted = i64::from(instance.end(StationNo(station), unit_type));
        let start = i64::from(instance.start(StationNo(station), unit_type));
        sum = sum.saturating_add(wanted.saturating_sub(start));
    }
    sum
}

/// The sign at each station for the type, and at each hand-over for each composition of the second trip, times its
/// units of the type: less these where the second trip departs. The error is want of memory.
fn ray_of(
    alloc: Global,
    instance: &Instance,
    unit_type: TypeNo,
    sign: i64,
) -> Result<Multipliers, NoMemory>
    requires { unit_type < length instance.now.types }
{
    let mut ray = Multipliers::new(alloc)?;
    for station in 0..instance.stations() {
        let station = StationNo(station);
        put(
            &mut ray,
            instance.index(Place::Mu { station, unit_type }),
            sign,
        );
    }
    for handover in 0..instance.handovers() {
        for comp in 0..instance.catalogue().len() {
            let comp = CompNo(comp);
            if instance.admits(instance.handover(handover).second, comp) {
                let units = i64::from(instance.catalogue().get(comp).count(unit_type));
                let value = if departs(instance, handover) {
                    0i64.saturating_sub(units)
                } else {
                    units
                };
                put(
                    &mut ray,
                    instance.index(Place::Sigma { handover, comp }),
                    sign.saturating_mul(value),
                );
            }
        }
    }
    Ok(ray)
}

/// Whether the second trip of a hand-over departs.
fn departs(instance: &Instance, handover: u32) -> bool
    requires { handover < length (handovers_of instance.now) }
{
    let handover = instance.handover(handover);
    instance.incoming(handover.second) == Some(handover.link)
}

/// Puts a multiplier, as far as there is room.
fn put(ray: &mut Multipliers, index: u32, value: i64) {
    let _is_put = ray.put(index, value).is_ok();
}
