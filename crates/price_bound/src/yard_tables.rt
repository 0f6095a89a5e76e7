//! Tables of the yards: for each station and type an amount for each departure minute of the station, and one after
//! these.

ghost use Rattle.std.specs.Prelude.{◌≡◌, ◌<◌, [], length, map, get_or, IfOk};
ghost use Rattle.inventory.specs.CountTable.{changed, cleared, zero_table};
ghost use Rattle.price_bound.specs.YardTables.{later_sums};

use crate::amounts::AmountTable;
use rail_base::{NoMemory, StationNo, TypeNo};
use std::alloc::Global;
use std::marker::Model;
use timetable::Instance;

/// Amounts of all stations. A contract sees for each station and type the list of them.
#[derive(Drop)]
pub(crate) struct YardTable {
    stations: Vec<AmountTable>,
}

impl Model for YardTable {
    ghost use Rattle.std.specs.Prelude.{List, ℤ};

    ghost Value = { List (List (List ℤ)) };

    ghost view = { λ a. a.stations.items };
}

impl YardTable {
    /// Zeros for each station and type of a day. The error is want of memory.
    pub(crate) fn new(alloc: Global, instance: &Instance) -> Result<YardTable, NoMemory>
        ensures { IfOk result (λ table. table ≡ zero_table instance.now) }
    {
        let types = instance.types().len() as usize;
        let mut stations = Vec::new(alloc);
        for station in 0..instance.stations() {
            let minutes = instance.minutes(StationNo(station)).len();
            stations.push(AmountTable::new(alloc, types, minutes + 1)?)?;
        }
        Ok(YardTable { stations })
    }

    /// Sets each amount to zero.
    pub(crate) fn clear(&mut self)
        ensures { self.new ≡ cleared self.old }
    {
        for station in 0..self.stations.len() {
            self.stations[station].clear();
        }
    }

    /// Adds to the amount of a station and a type at a place among the minutes, if there is one.
    pub(crate) fn add(&mut self, station: StationNo, unit_type: TypeNo, place: usize, amount: i64)
        ensures { self.new ≡ changed station unit_type place amount self.old }
    {
        if station.place() < self.stations.len() {
            self.stations[station.place()].add(unit_type.place(), place, amount);
        }
    }

    /// Adds to each amount all those of the same station and type at later places.
    pub(crate) fn add_later(&mut self)
        ensures { self.new ≡ map (map later_sums) self.old }
    {
        for station in 0..self.stations.len() {
            self.stations[station].add_later();
        }
    }

    /// The amounts of a station, with a row for each type. There is such a station.
    pub(crate) fn station(&self, station: StationNo) -> &AmountTable
        requires { station < length self.now }
        ensures { result.now ≡ get_or self.now station [] }
    {
        &self.stations[station.place()]
    }
}
