//! The day with the units of a fleet in place of its stock.

ghost use Rattle.std.specs.Prelude.{◌≡◌, ◌<◌, ◌≤◌, ◌*◌, length, IfOk};
ghost use Rattle.rail_base.specs.declared.limits.TheConstants.{MAX_STOCK};
ghost use Rattle.rail_csv.specs.Rows.{AreStockRows, IsStockRow};
ghost use Rattle.timetable.specs.DayTables.{IsDayOfBytes};
ghost use Rattle.fleets.specs.Fleets.{FitsDay, own_fleet, row_in, rows_from, start_at, with_fleet};

use crate::counts::Counts;
use rail_base::{Name, NoMemory, StationNo, TypeNo};
use rail_csv::{StockRow, TableBytes};
use std::alloc::Global;
use timetable::{Instance, Rows, Tables, tables_of};

/// How many units of each type stand at each station as the day begins, as a fleet. It fits the day: it has no more
/// units than a day may have. The error is want of memory.
pub fn fleet_of(alloc: Global, instance: &Instance) -> Result<Counts, NoMemory>
    ensures own { IfOk result (λ fleet. fleet ≡ own_fleet instance.now) }
    ensures fits { IfOk result (FitsDay instance.now) }
{
    let places = instance.stations() * instance.types().len();
    let mut counts = Vec::new(alloc);
    for place in 0..places {
        counts.push(start_at(instance, place))?;
    }
    // What is known of an accepted day.
    instance.is_sound();
    Ok(Counts::of(counts))
}

/// How many units stand at the start of the day at the station and of the type of a place.
fn start_at(instance: &Instance, place: u32) -> u32
    requires { place < length instance.now.stations * length instance.now.types }
    ensures { result ≡ start_at instance.now place }
{
    let types = instance.types().len();
    instance.start(StationNo(place / types), TypeNo(place % types))
}

/// The day with the units of a fleet in place of its stock: each station begins the day with these units, and is to end
/// it with as many of each type. Units are numbered by station and then type, as the law `fleets_are_numbered` tells.
/// All else is as on the day.
///
/// The bytes are those of the tables that made the day, and the fleet has a number for each of its stations and types,
/// and no more units in all than a day may have; so the tables make the day with the fleet too, by the law
/// `tables_make_days_of_fleets`, and the error is want of memory alone.
pub fn day_with(
    alloc: Global,
    bytes: &TableBytes,
    instance: &Instance,
    fleet: &Counts,
) -> Result<Instance, NoMemory>
    requires made { IsDayOfBytes bytes.now instance.now }
    requires fleet { FitsDay instance.now fleet.now }
    ensures { IfOk result (λ day. day ≡ with_fleet fleet.now instance.now) }
{
    let Ok(tables) = tables_of(alloc, bytes) else {
        return Err(NoMemory);
    };
    let rows = rows_of(alloc, instance, fleet)?;
    match Instance::build(alloc, with_rows(tables, rows)) {
        Ok(day) => Ok(day),
        Err(_) => Err(NoMemory),
    }
}

/// The stock rows of a fleet that fits the day.
fn rows_of(alloc: Global, instance: &Instance, fleet: &Counts) -> Result<Vec<StockRow>, NoMemory>
    requires { FitsDay instance.now fleet.now }
    ensures rows { IfOk result (λ rows. rows.items ≡ rows_from instance.now 0 fleet.now) }
    ensures within { IfOk result (λ rows. AreStockRows rows.items) }
{
    // What is known of an accepted day: it has so few stations and types.
    instance.is_sound();
    let mut rows = Vec::new(alloc);
    for place in 0..fleet.len() {
        rows.push(row_in(alloc, instance, place, fleet.at(place))?)?;
    }
    Ok(rows)
}

/// The stock row of a place of the day's fleets, with so many units.
fn row_in(alloc: Global, instance: &Instance, place: u32, units: u32) -> Result<StockRow, NoMemory>
    requires place { place < length instance.now.stations * length instance.now.types }
    requires units { units ≤ MAX_STOCK }
    ensures row { IfOk result (λ row. row ≡ row_in instance.now place units) }
    ensures within { IfOk result IsStockRow }
{
    let types = instance.types();
    let station = instance.station(StationNo(place / types.len()));
    let unit_type = types.get(TypeNo(place % types.len()));
    Ok(StockRow {
        station: Name::copy(alloc, station.name.as_str())?,
        unit_type: Name::copy(alloc, unit_type.name.as_str())?,
        start: units,
        end: units,
    })
}

/// The tables with other stock rows.
fn with_rows(tables: Tables, rows: Vec<StockRow>) -> Tables
    ensures { result ≡ record tables { stock = rows.items } }
{
    let Tables {
        types,
        stations,
        stock: _,
        trips,
        links,
        weights,
    } = tables;
    Tables {
        types,
        stations,
        stock: Rows::of(rows),
        trips,
        links,
        weights,
    }
}
