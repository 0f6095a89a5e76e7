//! The six tables together: the first test that fails, or their rows as entries of a day.

ghost use Rattle.std.specs.Prelude.{◌≡◌, ◌≤◌, [], length, Ok, IfOk};
ghost use Rattle.std.specs.Result.{result_and};
ghost use Rattle.rail_csv.specs.Rows.{AreTypeRows, AreStationRows, AreStockRows, AreTripRows, AreLinkRows};
ghost use Rattle.rail_csv.specs.Rows.{IsWeightsRow};
ghost use Rattle.compositions.specs.Catalogue.{catalogue_of};
ghost use Rattle.day_tables.specs.AcceptedRows.{GivesDay, GivesTripsAndLinks, GivesYards, lists_of_yards};
ghost use Rattle.day_tables.specs.Build.{day_of, yards_in, trips_and_links_in, weights_in};
ghost use Rattle.day_tables.specs.Compositions.{greatest_in};

use crate::building::entries::{
    add_stations, add_stock, add_types, are_too_many, catalogue_of, trips_of,
};
use crate::building::link_rows::links_of;
use crate::building::named::Named;
use crate::building::refusal::InstanceRefusal;
use crate::building::tables::{Rows, Tables};
use compositions::{Catalogue, UnitType, UnitTypes};
use rail_base::limits::MAX_STATIONS;
use rail_csv::{LinkRow, StationRow, StockRow, TripRow, TypeRow, WeightsRow};
use rules::{Link, Station, Stock, Trip, Weights};
use std::alloc::Global;

/// The entries of a day that the rows of its tables make, and the catalogue of its compositions.
#[derive(Drop)]
pub struct AcceptedRows {
    pub types: UnitTypes,
    pub stations: Vec<Station>,
    pub stock: Vec<Stock>,
    pub catalogue: Catalogue,
    pub trips: Vec<Trip>,
    pub links: Vec<Link>,
    pub weights: Weights,
}

/// The entries that these tables make, or the first test that fails: types, stations, stock, the number of units, the
/// catalogue, trips, and then links. `NoMemory` may come at any of them.
pub fn accept(alloc: Global, tables: Tables) -> Result<AcceptedRows, InstanceRefusal>
    requires types { AreTypeRows tables.types }
    requires stations { AreStationRows tables.stations }
    requires stock { AreStockRows tables.stock }
    requires trips { AreTripRows tables.trips }
    requires links { AreLinkRows tables.links }
    requires weights { IsWeightsRow tables.weights }
    ensures exact { GivesDay result (day_of tables) }
    ensures catalogue { IfOk result (λ rows.
        rows.catalogue ≡ catalogue_of rows.types (greatest_in rows.stations.items)) }
{
    let Tables {
        types,
        stations,
        stock,
        trips,
        links,
        weights,
    } = tables;
    let Yards {
        types,
        stations,
        stock,
    } = yards_of(alloc, types, stations, stock)?;
    let types = UnitTypes::new(types.into_entries());
    let trips_and_links = trips_and_links_of(alloc, &types, &stations, trips, links.items());
    let stations = stations.into_entries();
    let TripsAndLinks {
        catalogue,
        trips,
        links,
    } = trips_and_links?;
    Ok(AcceptedRows {
        types,
        stations,
        stock,
        catalogue,
        trips,
        links,
        weights: weights_of(weights),
    })
}

/// The unit types, the stations and what stands in their yards: the entries of a day before its trips.
#[derive(Drop)]
struct Yards {
    types: Named<UnitType>,
    stations: Named<Station>,
    stock: Vec<Stock>,
}

impl Yards {
    /// Adds the entries of these rows to yards that have none, or tells the first test that fails. What the yards hold
    /// then is of no use.
    fn add(
        &mut self,
        alloc: Global,
        types: Vec<TypeRow>,
        stations: Vec<StationRow>,
        stock: &[StockRow],
    ) -> Result<(), InstanceRefusal>
        requires empty { lists_of_yards self.old ≡ ([], [], []) }
        requires types { AreTypeRows types.items }
        requires stations { AreStationRows stations.items }
        requires stock { AreStockRows stock.now }
        ensures { GivesYards (result_and result (Ok self.new)) (yards_in types.items stations.items stock.now) }
    {
        add_types(alloc, &mut self.types, types)?;
        add_stations(alloc, &mut self.stations, stations)?;
        add_stock(&self.stations, &self.types, &mut self.stock, stock)?;
        if are_too_many(&self.stock) {
            return Err(InstanceRefusal::TooManyUnits);
        }
        Ok(())
    }
}

/// The yards that these rows make, or the first test that fails: types, stations, stock, and then the number of units.
fn yards_of(
    alloc: Global,
    types: Rows<TypeRow>,
    stations: Rows<StationRow>,
    stock: Rows<StockRow>,
) -> Result<Yards, InstanceRefusal>
    requires types { AreTypeRows types }
    requires stations { AreStationRows stations }
    requires stock { AreStockRows stock }
    ensures { GivesYards result (yards_in types stations stock) }
{
    let mut yards = Yards {
        types: Named::new(alloc),
        stations: Named::new(alloc),
        stock: Vec::new(alloc),
    };
    let added = yards.add(
        alloc,
        types.into_items(),
        stations.into_items(),
        stock.items(),
    );
    added.and(Ok(yards))
}

/// The trips of a day and their links, and the catalogue of the compositions that may run on them.
#[derive(Drop)]
struct TripsAndLinks {
    catalogue: Catalogue,
    trips: Vec<Trip>,
    links: Vec<Link>,
}

/// The trips and links over these types and stations, or the first test that fails: the catalogue, trips, and then
/// links.
fn trips_and_links_of(
    alloc: Global,
    types: &UnitTypes,
    stations: &Named<Station>,
    trips: Rows<TripRow>,
    links: &[LinkRow],
) -> Result<TripsAndLinks, InstanceRefusal>
    requires stations { length stations.now ≤ MAX_STATIONS }
    requires trips { AreTripRows trips }
    requires links { AreLinkRows links.now }
    ensures exact { GivesTripsAndLinks result (trips_and_links_in types.now stations.now trips links.now) }
    ensures catalogue { IfOk result (λ both. both.catalogue ≡ catalogue_of types.now (greatest_in stations.now)) }
{
    let catalogue = catalogue_of(alloc, types, stations.entries())?;
    let trips = trips_of(alloc, stations, types.items(), trips)?;
    let links = links_of(alloc, &trips, links);
    let trips = trips.into_entries();
    Ok(TripsAndLinks {
        catalogue,
        trips,
        links: links?,
    })
}

/// The weights of their row.
fn weights_of(row: WeightsRow) -> Weights
    ensures { result ≡ weights_in row }
{
    Weights {
        carriage: row.carriage,
        shortage: row.shortage,
        shunting: row.shunting,
    }
}
