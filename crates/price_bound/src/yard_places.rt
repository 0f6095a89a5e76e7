//! Where trips take units from the yards, and where they give them: at which stations, and at which of their minutes.
//!
//! This depends on the day alone, so that it is found once.

ghost use Rattle.std.specs.Prelude.{◌≡◌, ◌<◌, length, map, IfOk};
ghost use Rattle.price_bound.specs.YardTables.{ArePlaces, CanLook, amounts_at, given_at, taken_at};

use crate::amounts::AmountTable;
use crate::yard_tables::YardTable;
use inventory::place_of;
use rail_base::{NoMemory, StationNo, TripNo};
use std::alloc::Global;
use timetable::Instance;

/// A station, and a place among its departure minutes or after them.
#[derive(Clone, Copy)]
pub(crate) struct YardPlace {
    /// The station.
    pub station: StationNo,
    /// How many of its departure minutes are earlier.
    pub place: usize,
}

/// For each trip where its departure stands among the departure minutes of the station that it leaves. The error is
/// want of memory.
pub(crate) fn taken_places(alloc: Global, instance: &Instance) -> Result<Vec<YardPlace>, NoMemory>
    ensures { IfOk result (λ places. ArePlaces instance.now (taken_at instance.now) places.items) }
{
    let mut places = Vec::new(alloc);
    for trip in 0..instance.trips() {
        places.push(taken_at(instance, TripNo(trip)))?;
    }
    Ok(places)
}

/// For each trip the first departure minute of the station at which it arrives when the units that it gives are ready;
/// the place after all minutes, where they are ready at none. The error is want of memory.
pub(crate) fn given_places(alloc: Global, instance: &Instance) -> Result<Vec<YardPlace>, NoMemory>
    ensures { IfOk result (λ places. ArePlaces instance.now (given_at instance.now) places.items) }
{
    let mut places = Vec::new(alloc);
    for trip in 0..instance.trips() {
        places.push(given_at(instance, TripNo(trip)))?;
    }
    Ok(places)
}

/// Puts into the row of each trip the amounts at its place, one for each type. It takes no memory.
pub(crate) fn look_up(yards: &YardTable, places: &[YardPlace], table: &mut AmountTable)
    requires { CanLook yards.now places.now table.old }
    ensures { table.new ≡ map (amounts_at yards.now) places.now }
{
    for trip in 0..places.len() {
        let at = places[trip];
        table.copy_column(trip, yards.station(at.station), at.place);
    }
}

/// Where a trip takes units.
#[tactic(auto, unfolding(rules::specs::Day::from_of, rules::specs::Day::leaves))]
fn taken_at(instance: &Instance, trip: TripNo) -> YardPlace
    requires { trip < length instance.now.trips }
    ensures value { result ≡ taken_at instance.now trip }
    ensures known { result.station < length instance.now.stations }
{
    let run = instance.trip(trip);
    YardPlace {
        station: run.from,
        place: place_of(instance.minutes(run.from), run.departure),
    }
}

/// Where a trip gives units.
#[tactic(auto, unfolding(rules::specs::Day::to_of))]
fn given_at(instance: &Instance, trip: TripNo) -> YardPlace
    requires { trip < length instance.now.trips }
    ensures value { result ≡ given_at instance.now trip }
    ensures known { result.station < length instance.now.stations }
{
    let run = instance.trip(trip);
    let ready = instance.ready_at(trip);
    YardPlace {
        station: run.to,
        place: place_of(instance.minutes(run.to), ready),
    }
}
