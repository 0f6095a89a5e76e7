//! The tests on the rows of the tables, one table after another.

ghost use Rattle.std.specs.Prelude.{◌≡◌, ◌+◌, ◌<◌, ◌≤◌, ◌++◌, ◌∷◌, [], length, nat_lt, min, false, Ok, IfSome, IfOk};
ghost use Rattle.std.specs.Result.{result_and};
ghost use Rattle.day_tables.specs.Build.{accept_type, accept_station, has_stock, accept_stock, starts_of, platform_at};
ghost use Rattle.day_tables.specs.Build.{has_fitting, accept_run, ends_in, accept_trip, trips_in, catalogue_in};
ghost use Rattle.day_tables.specs.Build.{is_memory};
ghost use Rattle.rail_base.specs.Answers.{Gives};
ghost use Rattle.compositions.specs.Catalogue.{catalogue_of};
ghost use Rattle.day_tables.specs.Compositions.{greatest_in};
ghost use Rattle.day_tables.specs.NamedEntries.{has_name, find_name};
ghost use Rattle.day_tables.specs.Rowwise.{accept_each};

use crate::building::named::Named;
use crate::building::refusal::InstanceRefusal;
use crate::building::tables::Rows;
use compositions::{Catalogue, CatalogueRefusal, UnitType, UnitTypes};
use rail_base::limits::{MAX_STATIONS, MAX_STOCK_ROWS, MAX_TRIPS, MAX_TYPES, MAX_UNITS};
use rail_base::{Name, StationNo, TypeNo};
use rail_csv::{StationRow, StockRow, Table, TripRow, TypeRow};
use rules::{Station, Stock, Trip};
use std::alloc::Global;

/// The number of the row after so many, counted from 1. No table has more rows than trips may have.
pub fn row_after(before: usize) -> u32
    requires { before ≤ MAX_TRIPS }
    ensures { result ≡ before + 1 }
{
    before as u32 + 1
}

/// The unit type of a row, after those of the rows before it.
#[tactic(auto, unfolding(crate::specs::Build::accept_type))]
fn accept_type(types: &Named<UnitType>, row: TypeRow) -> Result<UnitType, InstanceRefusal>
    requires { length types.now ≤ MAX_TYPES }
    ensures value { result ≡ accept_type types.now row }
    ensures new { IfOk result (λ t. has_name (λ t. t.name) types.now t.name ≡ false) }
{
    if types.has(&row.name) {
        return Err(InstanceRefusal::RepeatedName {
            table: Table::Types,
            row: row_after(types.len()),
        });
    }
    Ok(UnitType {
        name: row.name,
        carriages: row.carriages,
        seats: row.seats,
        metres: row.metres,
        family: row.family,
        first: row.first,
    })
}

/// Adds the unit types of the rows to those of the rows before them.
pub fn add_types(
    alloc: Global,
    types: &mut Named<UnitType>,
    rows: Vec<TypeRow>,
) -> Result<(), InstanceRefusal>
    requires { length types.old + length rows.items ≤ MAX_TYPES }
    ensures { Gives is_memory (result_and result (Ok types.new)) (accept_each accept_type types.old rows.items) }
{
    for row in rows {
        let accepted = accept_type(types, row)?;
        types.push(alloc, accepted)?;
    }
    Ok(())
}

/// The station of a row, after those of the rows before it.
#[tactic(auto, unfolding(crate::specs::Build::accept_station))]
fn accept_station(stations: &Named<Station>, row: StationRow) -> Result<Station, InstanceRefusal>
    requires { length stations.now ≤ MAX_STATIONS }
    ensures value { result ≡ accept_station stations.now row }
    ensures new { IfOk result (λ s. has_name (λ s. s.name) stations.now s.name ≡ false) }
{
    if stations.has(&row.name) {
        return Err(InstanceRefusal::RepeatedName {
            table: Table::Stations,
            row: row_after(stations.len()),
        });
    }
    Ok(Station {
        name: row.name,
        platform: row.platform,
        reallocation: row.reallocation,
    })
}

/// Adds the stations of the rows to those of the rows before them.
pub fn add_stations(
    alloc: Global,
    stations: &mut Named<Station>,
    rows: Vec<StationRow>,
) -> Result<(), InstanceRefusal>
    requires { length stations.old + length rows.items ≤ MAX_STATIONS }
    ensures { Gives is_memory (result_and result (Ok stations.new))
        (accept_each accept_station stations.old rows.items) }
{
    for row in rows {
        let accepted = accept_station(stations, row)?;
        stations.push(alloc, accepted)?;
    }
    Ok(())
}

/// The number of the station with the name.
fn find_station(stations: &Named<Station>, name: &Name) -> Option<StationNo>
    requires { length stations.now ≤ MAX_STATIONS }
    ensures value { result ≡ find_name (λ s. s.name) stations.now name.now }
    ensures within { IfSome result (λ s. s < length stations.now) }
{
    let Some(place) = stations.find(name) else {
        return None;
    };
    Some(StationNo(place as u32))
}

/// The number of the type with the name.
fn find_type(types: &Named<UnitType>, name: &Name) -> Option<TypeNo>
    requires { length types.now ≤ MAX_TYPES }
    ensures { result ≡ find_name (λ t. t.name) types.now name.now }
{
    let Some(place) = types.find(name) else {
        return None;
    };
    Some(TypeNo(place as u32))
}

/// Whether a stock row is of this station and this type.
fn has_stock(before: &[Stock], station: StationNo, unit_type: TypeNo) -> bool
    ensures { result ≡ has_stock before.now station unit_type }
{
    before
        .iter()
        .any(|row| row.station == station && row.unit_type == unit_type)
}

/// The stock of a row, after that of the rows before it.
#[tactic(auto, unfolding(crate::specs::Build::accept_stock))]
fn accept_stock(
    stations: &Named<Station>,
    types: &Named<UnitType>,
    before: &[Stock],
    row: &StockRow,
) -> Result<Stock, InstanceRefusal>
    requires stations { length stations.now ≤ MAX_STATIONS }
    requires types { length types.now ≤ MAX_TYPES }
    requires before { length before.now ≤ MAX_STOCK_ROWS }
    ensures { result ≡ accept_stock stations.now types.now before.now row.now }
{
    let number = row_after(before.len());
    let Some(station) = find_station(stations, &row.station) else {
        return Err(InstanceRefusal::UnknownName {
            table: Table::Stock,
            row: number,
            column: 0,
        });
    };
    let Some(unit_type) = find_type(types, &row.unit_type) else {
        return Err(InstanceRefusal::UnknownName {
            table: Table::Stock,
            row: number,
            column: 1,
        });
    };
    if has_stock(before, station, unit_type) {
        return Err(InstanceRefusal::RepeatedStock(number));
    }
    Ok(Stock {
        station,
        unit_type,
        start: row.start,
        end: row.end,
    })
}

/// Adds the stock of the rows to that of the rows before them.
pub fn add_stock(
    stations: &Named<Station>,
    types: &Named<UnitType>,
    stock: &mut Vec<Stock>,
    rows: &[StockRow],
) -> Result<(), InstanceRefusal>
    requires stations { length stations.now ≤ MAX_STATIONS }
    requires types { length types.now ≤ MAX_TYPES }
    requires rows { length stock.old.items + length rows.now ≤ MAX_STOCK_ROWS }
    ensures { Gives is_memory (result_and result (Ok stock.new.items))
        (accept_each (accept_stock stations.now types.now) stock.old.items rows.now) }
{
    for row in rows {
        let accepted = accept_stock(stations, types, stock, row)?;
        stock.push(accepted)?;
    }
    Ok(())
}

/// Whether more units stand at the stations at the start than a day may have.
pub fn are_too_many(stock: &[Stock]) -> bool
    ensures { result ≡ nat_lt MAX_UNITS (starts_of stock.now) }
{
    let mut units = 0;
    for row in stock {
        if row.start > MAX_UNITS - units {
            return true;
        }
        units += row.start;
    }
    false
}

/// The metres of the greatest platform, and 0 where there is no station.
fn greatest_platform(stations: &[Station]) -> u32
    ensures { result ≡ greatest_in stations.now }
{
    let mut longest = 0;
    for station in stations {
        longest = station.platform.max(longest);
    }
    longest
}

/// The compositions that fit the greatest platform.
#[tactic(auto, unfolding(crate::specs::Build::catalogue_in))]
pub fn catalogue_of(
    alloc: Global,
    types: &UnitTypes,
    stations: &[Station],
) -> Result<Catalogue, InstanceRefusal>
    ensures exact { Gives is_memory result (catalogue_in types.now stations.now) }
    ensures value { IfOk result (λ catalogue. catalogue ≡ catalogue_of types.now (greatest_in stations.now)) }
{
    match Catalogue::build(alloc, types, greatest_platform(stations)) {
        Ok(catalogue) => Ok(catalogue),
        Err(CatalogueRefusal::TooMany) => Err(InstanceRefusal::TooManyCompositions),
        Err(CatalogueRefusal::NoMemory) => Err(InstanceRefusal::NoMemory),
    }
}

/// Whether one unit of some type is no longer than so many metres.
fn has_fitting(types: &[UnitType], longest: u32) -> bool
    ensures { result ≡ has_fitting types.now longest }
{
    types.iter().any(|unit_type| unit_type.metres <= longest)
}

/// The metres that fit the platforms of two stations.
pub fn longest_between(stations: &[Station], from: StationNo, to: StationNo) -> u32
    requires from { from < length stations.now }
    requires to { to < length stations.now }
    ensures { result ≡ min (platform_at stations.now from) (platform_at stations.now to) }
{
    let from = stations[from.place()].platform;
    let to = stations[to.place()].platform;
    from.min(to)
}

/// Tests a trip's stations and times, and whether a composition fits its platforms.
#[tactic(auto, unfolding(crate::specs::Build::accept_run))]
fn check_run(
    stations: &[Station],
    types: &[UnitType],
    row: u32,
    trip: &Trip,
) -> Result<(), InstanceRefusal>
    requires from { trip.now.from < length stations.now }
    requires to { trip.now.to < length stations.now }
    ensures { result_and result (Ok trip.now) ≡ accept_run stations.now types.now row trip.now }
{
    if trip.from == trip.to {
        return Err(InstanceRefusal::SameStation(row));
    }
    if trip.arrival <= trip.departure {
        return Err(InstanceRefusal::ArrivalNotAfterDeparture(row));
    }
    if !has_fitting(types, longest_between(stations, trip.from, trip.to)) {
        return Err(InstanceRefusal::NoComposition(row));
    }
    Ok(())
}

/// The stations that a row's trip leaves from and goes to, where its name is not that of a row before it.
#[tactic(auto, unfolding(crate::specs::Build::ends_in))]
fn ends_of(
    stations: &Named<Station>,
    before: &Named<Trip>,
    row: &TripRow,
) -> Result<(StationNo, StationNo), InstanceRefusal>
    requires stations { length stations.now ≤ MAX_STATIONS }
    requires before { length before.now ≤ MAX_TRIPS }
    ensures value { result ≡ ends_in stations.now before.now row.now }
    ensures new { IfOk result (λ _. has_name (λ t. t.name) before.now row.now.name ≡ false) }
    ensures from { IfOk result (λ ends. ends.0 < length stations.now) }
    ensures to { IfOk result (λ ends. ends.1 < length stations.now) }
{
    let number = row_after(before.len());
    if before.has(&row.name) {
        return Err(InstanceRefusal::RepeatedName {
            table: Table::Trips,
            row: number,
        });
    }
    let Some(from) = find_station(stations, &row.from) else {
        return Err(InstanceRefusal::UnknownName {
            table: Table::Trips,
            row: number,
            column: 1,
        });
    };
    let Some(to) = find_station(stations, &row.to) else {
        return Err(InstanceRefusal::UnknownName {
            table: Table::Trips,
            row: number,
            column: 3,
        });
    };
    Ok((from, to))
}

/// The trip of a row, after those of the rows before it.
#[tactic(auto, unfolding(crate::specs::Build::accept_trip, crate::specs::Build::ends_in))]
fn accept_trip(
    stations: &Named<Station>,
    types: &[UnitType],
    before: &Named<Trip>,
    row: TripRow,
) -> Result<Trip, InstanceRefusal>
    requires stations { length stations.now ≤ MAX_STATIONS }
    requires before { length before.now ≤ MAX_TRIPS }
    ensures value { result ≡ accept_trip stations.now types.now before.now row }
    ensures new { IfOk result (λ t. has_name (λ t. t.name) before.now t.name ≡ false) }
{
    let (from, to) = ends_of(stations, before, &row)?;
    let trip = Trip {
        name: row.name,
        from,
        departure: row.departure,
        to,
        arrival: row.arrival,
        km: row.km,
        demand: row.demand,
        first: row.first,
    };
    let checked = check_run(stations.entries(), types, row_after(before.len()), &trip);
    checked.and(Ok(trip))
}

/// Adds the trips of the rows to those of the rows before them.
fn add_trips(
    alloc: Global,
    stations: &Named<Station>,
    types: &[UnitType],
    trips: &mut Named<Trip>,
    rows: Vec<TripRow>,
) -> Result<(), InstanceRefusal>
    requires stations { length stations.now ≤ MAX_STATIONS }
    requires rows { length trips.old + length rows.items ≤ MAX_TRIPS }
    ensures { Gives is_memory (result_and result (Ok trips.new))
        (accept_each (accept_trip stations.now types.now) trips.old rows.items) }
{
    for row in rows {
        let accepted = accept_trip(stations, types, trips, row)?;
        trips.push(alloc, accepted)?;
    }
    Ok(())
}

/// The trips of the rows.
#[tactic(auto, unfolding(crate::specs::Build::trips_in))]
pub fn trips_of(
    alloc: Global,
    stations: &Named<Station>,
    types: &[UnitType],
    rows: Rows<TripRow>,
) -> Result<Named<Trip>, InstanceRefusal>
    requires stations { length stations.now ≤ MAX_STATIONS }
    requires rows { length rows ≤ MAX_TRIPS }
    ensures { Gives is_memory result (trips_in stations.now types.now rows) }
{
    let mut trips = Named::new(alloc);
    let added = add_trips(alloc, stations, types, &mut trips, rows.into_items());
    added.and(Ok(trips))
}
