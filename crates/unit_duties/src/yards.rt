//! Units that wait in the yards of the stations, in the order in which a trip takes them.

ghost use Rattle.std.specs.Prelude.{◌≡◌, IfOk, IfNone, IfSome};
ghost use Rattle.timetable.specs.Accepted.{IsStocked};
ghost use Rattle.unit_duties.specs.Yards.{NoneReady, IsFirstReady, IsTaken, AreAtHome};

use rail_base::{NoMemory, StationNo, TypeNo, UnitNo};
use std::alloc::Global;
use std::collections::BTreeSet;
use timetable::Instance;

/// A unit in the yard of a station. Units are in order by station, then by type, then by the minute from which they are
/// ready, and then by number.
#[derive(Clone, Copy, PartialEq, Eq, PartialOrd, Ord)]
pub(crate) struct Waiting {
    /// The station.
    pub(crate) station: StationNo,
    /// The type of the unit.
    pub(crate) unit_type: TypeNo,
    /// The minute from which a trip may take it.
    pub(crate) ready: u32,
    /// The unit.
    pub(crate) unit: UnitNo,
}

/// The units at their homes, ready from the first minute on. No two stock rows of the day are of one station and one
/// type.
pub(crate) fn units_at_home(
    alloc: Global,
    instance: &Instance,
) -> Result<BTreeSet<Waiting>, NoMemory>
    ensures home { IfOk result (λ yards. AreAtHome instance.now yards) }
    ensures once { IsStocked instance.now }
{
    let mut yards = BTreeSet::new(alloc);
    for number in 0..instance.units() {
        let unit = instance.unit(UnitNo(number));
        yards.insert(Waiting {
            station: unit.home,
            unit_type: unit.unit_type,
            ready: 0,
            unit: UnitNo(number),
        })?;
    }
    Ok(yards)
}

/// Takes a unit of a type from the yard of a station, where one is ready at a minute: the one that was ready earliest,
/// and of those the one with the smallest number.
pub(crate) fn take(
    yards: &mut BTreeSet<Waiting>,
    station: StationNo,
    unit_type: TypeNo,
    minute: u32,
) -> Option<UnitNo>
    ensures none { IfNone result (NoneReady yards.old station unit_type minute) }
    ensures unchanged { IfNone result (yards.new.keys ≡ yards.old.keys) }
    ensures some { IfSome result (IsTaken yards.old station unit_type minute yards.new) }
{
    let first = first_ready(yards, station, unit_type, minute)?;
    yards.remove(&first);
    Some(first.unit)
}

/// The unit that is taken next.
fn first_ready(
    yards: &BTreeSet<Waiting>,
    station: StationNo,
    unit_type: TypeNo,
    minute: u32,
) -> Option<Waiting>
    ensures none { IfNone result (NoneReady yards.now station unit_type minute) }
    ensures some { IfSome result (IsFirstReady yards.now station unit_type minute) }
{
    let earliest = Waiting {
        station,
        unit_type,
        ready: 0,
        unit: UnitNo(0),
    };
    let first = *yards.range(earliest..).next()?;
    if first.station != station || first.unit_type != unit_type || first.ready > minute {
        return None;
    }
    Some(first)
}
