//! Where the units of a week stand as a day begins.

ghost use Rattle.std.specs.Prelude.{ℕ, ◌≡◌, ◌<◌, All, length, map, IfOk};
ghost use Rattle.timetable.specs.Day.{unit_count, units_of};
ghost use Rattle.timetable.specs.Duties.{ends_at, last_place};
ghost use Rattle.timetable.specs.Lists.{listed};
ghost use Rattle.timetable.specs.Running.{IsPlan};
ghost use Rattle.inventory.specs.ServingLaws.{units_after};
ghost use Rattle.week_units.specs.Listed.{AreAlike, ArePlaced, units_listed};
ghost use Rattle.week_units.specs.Names.{AreNames, by_name, name_in};

use rail_base::{NoMemory, StationNo, UnitNo};
use std::alloc::Global;
use timetable::{Instance, NamedPlan, Unit};
use unit_duties::{Stop, duties};

/// The units of a day's stock, by number. The error is want of memory.
pub(crate) fn units_of(alloc: Global, instance: &Instance) -> Result<Vec<Unit>, NoMemory>
    ensures { IfOk result (λ units. units.items ≡ units_of instance.now) }
{
    let mut units = Vec::new(alloc);
    for unit in 0..instance.units() {
        units.push(instance.unit(UnitNo(unit)))?;
    }
    Ok(units)
}

/// The units of the week as a plan of a day, by name, leaves them: each where its duty ends. The error is want of
/// memory.
pub(crate) fn units_after(
    alloc: Global,
    units: &[Unit],
    instance: &Instance,
    plan: &NamedPlan,
    names: &[UnitNo],
) -> Result<Vec<Unit>, NoMemory>
    requires plan { IsPlan instance.now plan.now }
    requires names { AreNames (units_listed units.now) instance.now names.now }
    ensures { IfOk result (λ after. AreAlike (units_listed after.items)
        (units_after (units_listed units.now) instance.now (by_name names.now plan.now))) }
{
    let places = last_places(alloc, instance, plan)?;
    let mut after = units.to_vec(alloc)?;
    place_units(&mut after, names, &places);
    Ok(after)
}

/// Where each unit of a day is at its end. The error is want of memory.
fn last_places(
    alloc: Global,
    instance: &Instance,
    plan: &NamedPlan,
) -> Result<Vec<StationNo>, NoMemory>
    requires { IsPlan instance.now plan.now }
    ensures { IfOk result (λ places. places.items ≡ listed (last_place instance.now plan.now)
        (unit_count instance.now)) }
{
    let duties = duties(alloc, instance, plan)?;
    let mut places = Vec::new(alloc);
    for unit in 0..instance.units() {
        let unit = UnitNo(unit);
        places.push(end_of(instance, instance.unit(unit).home, duties.stops(unit)))?;
    }
    Ok(places)
}

/// Where these stops end, which begin at a station.
fn end_of(instance: &Instance, station: StationNo, stops: &[Stop]) -> StationNo
    requires { All (λ stop. stop.trip < length instance.now.trips) stops.now }
    ensures { result ≡ ends_at instance.now station (map (λ stop. stop.trip) stops.now) }
{
    let mut place = station;
    for stop in stops {
        place = instance.trip(stop.trip).to;
    }
    place
}

/// Puts each unit of the week that a unit of a day is at the place of that one.
fn place_units(units: &mut [Unit], names: &[UnitNo], places: &[StationNo])
    requires known { (u : ℕ) → u < length names.now → name_in names.now u < length units.old }
    requires once { (u v : ℕ) → u < length names.now → v < length names.now
        → name_in names.now u ≡ name_in names.now v → u ≡ v }
    requires places { length places.now ≡ length names.now }
    ensures { ArePlaced names.now places.now (length names.now) units.old units.new }
{
    for place in 0..names.len() {
        let unit = &mut units[names[place].place()];
        unit.home = places[place];
    }
}
