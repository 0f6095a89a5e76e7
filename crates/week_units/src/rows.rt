//! Whether two days have the same types and the same stations.

ghost use Rattle.std.specs.Prelude.{◌≡◌, ◌↔◌, IsTrue};

use compositions::UnitType;
use rail_base::StationNo;
use timetable::{Instance, Station};

/// Whether two types are the same in all that their rows say.
fn is_same_type(one: &UnitType, other: &UnitType) -> bool
    ensures { IsTrue result ↔ (one.now ≡ other.now) }
{
    if !one.name.is(&other.name) || !one.family.is(&other.family) {
        return false;
    }
    if one.carriages != other.carriages || one.metres != other.metres {
        return false;
    }
    one.seats == other.seats && one.first == other.first
}

/// Whether two stations are the same in all that their rows say.
fn is_same_station(one: &Station, other: &Station) -> bool
    ensures { IsTrue result ↔ (one.now ≡ other.now) }
{
    if !one.name.is(&other.name) {
        return false;
    }
    one.platform == other.platform && one.reallocation == other.reallocation
}

/// Whether these are the same types, in the same order.
fn are_same_types(types: &[UnitType], others: &[UnitType]) -> bool
    ensures { IsTrue result ↔ (types.now ≡ others.now) }
{
    if types.len() != others.len() {
        return false;
    }
    for place in 0..types.len() {
        if !is_same_type(&types[place], &others[place]) {
            return false;
        }
    }
    true
}

/// Whether two days have the same types.
pub(crate) fn has_types_of(first: &Instance, day: &Instance) -> bool
    ensures { IsTrue result ↔ (day.now.types ≡ first.now.types) }
{
    are_same_types(day.types().items(), first.types().items())
}

/// Whether two days have the same stations.
pub(crate) fn has_stations_of(first: &Instance, day: &Instance) -> bool
    ensures { IsTrue result ↔ (day.now.stations ≡ first.now.stations) }
{
    if day.stations() != first.stations() {
        return false;
    }
    for station in 0..day.stations() {
        let station = StationNo(station);
        if !is_same_station(day.station(station), first.station(station)) {
            return false;
        }
    }
    true
}
