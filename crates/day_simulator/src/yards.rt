//! Units that are taken from a yard, and units that are put to a place.

ghost use Rattle.std.specs.Prelude.{◌≡◌, ◌<◌, ℕ, length, IsTrue, slice_set};
ghost use Rattle.timetable.specs.Day.{unit_count};
ghost use Rattle.timetable.specs.Lists.{has};
ghost use Rattle.timetable.specs.Running.{AreUnits};
ghost use Rattle.day_simulator.specs.State.{is_ready, put_all};
ghost use Rattle.day_simulator.specs.Steps.{first_missing};

use crate::events::UnitLocation;
use crate::trips::{departure, from_of};
use rail_base::{StationNo, TripNo, UnitNo};
use timetable::Instance;

/// Whether a unit stands in the yard of a station and is ready at a minute.
fn is_ready(station: StationNo, minute: u32, place: UnitLocation) -> bool
    ensures { result ≡ is_ready station minute place }
{
    match place {
        UnitLocation::Yard { station: at, ready } => at == station && ready <= minute,
        UnitLocation::Aboard(_) | UnitLocation::Standing(_) => false,
    }
}

/// The first of these units that is not in the yard and ready, where a trip takes them one by one, front to rear.
pub(crate) fn first_missing(
    instance: &Instance,
    trip: TripNo,
    locations: &[UnitLocation],
    units: &[UnitNo],
) -> Option<UnitNo>
    requires trip { trip < length instance.now.trips }
    requires locations { length locations.now ≡ unit_count instance.now }
    requires known { AreUnits instance.now units.now }
    ensures { result ≡ first_missing instance.now trip locations.now units.now }
{
    let station = from_of(instance, trip);
    let minute = departure(instance, trip);
    for i in 0..units.len() {
        let unit = units[i];
        if units[..i].contains(&unit) {
            return Some(unit);
        }
        if !is_ready(station, minute, locations[unit.place()]) {
            return Some(unit);
        }
    }
    None
}

/// Puts a unit to a place.
fn put(locations: &mut [UnitLocation], unit: UnitNo, place: UnitLocation)
    requires { unit < length locations.old }
    ensures { locations.new ≡ slice_set locations.old unit place }
{
    locations[unit.place()] = place;
}

/// Puts units to one place.
pub(crate) fn put_all(locations: &mut [UnitLocation], units: &[UnitNo], place: &UnitLocation)
    requires { (u : ℕ) → IsTrue (has u units.now) → u < length locations.old }
    ensures { locations.new ≡ put_all locations.old units.now place.now }
{
    for unit in units {
        put(locations, *unit, *place);
    }
}
