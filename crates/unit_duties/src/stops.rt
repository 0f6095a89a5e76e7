//! Duties: for each unit its trips, one after another, and its place in each.

ghost use Rattle.std.specs.Prelude.{◌≡◌, ◌<◌, ◌++◌, ◌∷◌, [], length, slice_get, Some, IfOk, OnOk};

use rail_base::{NoMemory, TripNo, UnitNo};
use std::alloc::Global;
use std::marker::Model;

/// A trip of a unit's duty.
#[derive(Clone, Copy)]
pub struct Stop {
    /// The trip.
    pub trip: TripNo,
    /// The place of the unit in the trip's list, counted from 0 at the front: the first one where the list has it
    /// twice.
    pub position: u32,
}

/// The duty of one unit. A contract sees the list of its stops.
#[derive(Drop)]
pub(crate) struct StopList {
    stops: Vec<Stop>,
}

impl Model for StopList {
    ghost use Rattle.std.specs.Prelude.{List};
    ghost use Rattle.unit_duties.specs.declared.stops.Stop.{Stop};

    ghost Value = { List Stop };

    ghost view = { λ a. a.stops.items };
}

/// The duty of each unit of a day, by the numbers of the units. A contract sees a list of stops for each unit.
#[derive(Drop)]
pub struct Duties {
    pub(crate) lists: Vec<StopList>,
}

impl Model for Duties {
    ghost use Rattle.std.specs.Prelude.{List};
    ghost use Rattle.unit_duties.specs.declared.stops.Stop.{Stop};

    ghost Value = { List (List Stop) };

    ghost view = { λ a. a.lists.items };
}

impl Duties {
    /// The trips of a unit by departure minute and then by trip number, with its place in each. The unit is below the
    /// number of units of the day.
    pub fn stops(&self, unit: UnitNo) -> &[Stop]
        requires { unit < length self.now }
        ensures { slice_get self.now unit ≡ Some result.now }
    {
        self.lists[unit.place()].items()
    }
}

impl StopList {
    /// The stops.
    fn items(&self) -> &[Stop]
        ensures { result.now ≡ self.now }
    {
        &self.stops
    }

    /// A duty of no trips.
    pub(crate) fn new(alloc: Global) -> StopList
        ensures { result ≡ [] }
    {
        StopList {
            stops: Vec::new(alloc),
        }
    }

    /// Adds a stop behind the others.
    pub(crate) fn push(&mut self, stop: Stop) -> Result<(), NoMemory>
        ensures { OnOk result (self.new ≡ self.old ++ stop ∷ []) }
    {
        self.stops.push(stop)?;
        Ok(())
    }
}
