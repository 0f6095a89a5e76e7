//! The duties of a plan.

ghost use Rattle.std.specs.Prelude.{ℕ, ◌≡◌, ◌<◌, ◌≤◌, ◌++◌, ◌∷◌, [], length, slice_set, replicate, IfOk, OnOk, IsTrue};
ghost use Rattle.timetable.specs.Day.{unit_count};
ghost use Rattle.timetable.specs.Lists.{has};
ghost use Rattle.timetable.specs.Running.{IsPlan};
ghost use Rattle.unit_duties.specs.AddedStops.{stops_at, stop_of};
ghost use Rattle.unit_duties.specs.Stops.{duties_of};

use crate::order::trips_in_order;
use crate::stops::{Duties, Stop, StopList};
use rail_base::limits::MAX_COMPOSITION_UNITS;
use rail_base::{NoMemory, TripNo, UnitNo};
use std::alloc::Global;
use timetable::{Instance, NamedPlan};

/// The duties of a plan, which is one of this day: for each unit the trips whose lists have it, by departure minute and
/// then by trip number, with its place in each. The plan need not run. The error is want of memory.
pub fn duties(alloc: Global, instance: &Instance, plan: &NamedPlan) -> Result<Duties, NoMemory>
    requires { IsPlan instance.now plan.now }
    ensures list { IfOk result (λ duties. duties ≡ duties_of instance.now plan.now) }
    ensures each { IfOk result (λ duties. length duties ≡ unit_count instance.now) }
{
    let order = trips_in_order(alloc, instance)?;
    let mut lists = empty_lists(alloc, instance.units())?;
    for trip in &order {
        add_trip(&mut lists, *trip, plan.units(*trip))?;
    }
    Ok(Duties { lists })
}

/// For each unit a duty of no trips.
fn empty_lists(alloc: Global, units: u32) -> Result<Vec<StopList>, NoMemory>
    ensures { IfOk result (λ lists. lists.items ≡ replicate units []) }
{
    let mut lists = Vec::new(alloc);
    for _ in 0..units {
        lists.push(StopList::new(alloc))?;
    }
    Ok(lists)
}

/// Adds a stop to the duty of one unit.
fn add_stop(lists: &mut [StopList], unit: UnitNo, stop: Stop) -> Result<(), NoMemory>
    requires { unit < length lists.old }
    ensures { OnOk result (lists.new ≡ slice_set lists.old unit (stops_at lists.old unit ++ stop ∷ [])) }
{
    lists[unit.place()].push(stop)
}

/// Adds a trip to the duties of the units that run on it.
fn add_trip(lists: &mut [StopList], trip: TripNo, units: &[UnitNo]) -> Result<(), NoMemory>
    requires known { (u : ℕ) → IsTrue (has u units.now) → u < length lists.old }
    requires few { length units.now ≤ MAX_COMPOSITION_UNITS }
    ensures { OnOk result ((u : ℕ) → u < length lists.old →
        stops_at lists.new u ≡ stops_at lists.old u ++ stop_of trip u units.now) }
{
    for place in 0..units.len() {
        let unit = units[place];
        if !units[..place].contains(&unit) {
            let stop = Stop {
                trip,
                position: place as u32,
            };
            add_stop(lists, unit, stop)?;
        }
    }
    Ok(())
}
