//! What the calls of `Instance` tell of a day, as a text.

ghost use Rattle.std.specs.Prelude.{IfOk};
ghost use Rattle.rail_csv.specs.Rows.{AreStationRows, AreStockRows, AreTypeRows};
ghost use Rattle.rail_csv.specs.Rows.{AreLinkRows, AreTripRows, IsWeightsRow};

use rail_base::{CompNo, LinkNo, StationNo, TripNo, TypeNo, UnitNo};
use rail_csv::{
    LinkRow, StationRow, StockRow, TripRow, TypeRow, links, stations, stock, trips, types, weights,
};
use sample_days::{Texts, table};
use std::alloc::{AllocError, Global};
use std::test::Fail;
use timetable::{Instance, InstanceRefusal, Rows, Tables, Trip};

/// The rows of types, stations and stock.
#[derive(Drop)]
struct UnitRows {
    types: Rows<TypeRow>,
    stations: Rows<StationRow>,
    stock: Rows<StockRow>,
}

/// These rows of some tables.
fn unit_rows(alloc: Global, texts: &Texts<'_>) -> Result<UnitRows, Fail>
    ensures types { IfOk result (λ rows. AreTypeRows rows.types) }
    ensures stations { IfOk result (λ rows. AreStationRows rows.stations) }
    ensures stock { IfOk result (λ rows. AreStockRows rows.stock) }
{
    let types_text = table(texts.types)?;
    let stations_text = table(texts.stations)?;
    let stock_text = table(texts.stock)?;
    Ok(UnitRows {
        types: Rows::of(types(alloc, types_text)?),
        stations: Rows::of(stations(alloc, stations_text)?),
        stock: Rows::of(stock(alloc, stock_text)?),
    })
}

/// The rows of trips and links.
#[derive(Drop)]
struct TripRows {
    trips: Rows<TripRow>,
    links: Rows<LinkRow>,
}

/// These rows of some tables.
fn trip_rows(alloc: Global, texts: &Texts<'_>) -> Result<TripRows, Fail>
    ensures trips { IfOk result (λ rows. AreTripRows rows.trips) }
    ensures links { IfOk result (λ rows. AreLinkRows rows.links) }
{
    let trips_text = table(texts.trips)?;
    let links_text = table(texts.links)?;
    Ok(TripRows {
        trips: Rows::of(trips(alloc, trips_text)?),
        links: Rows::of(links(alloc, links_text)?),
    })
}

/// The tables that the readers of tables give for these texts and that of the weights.
pub(crate) fn tables_of(
    alloc: Global,
    texts: &Texts<'_>,
    weights_text: &[u8],
) -> Result<Tables, Fail>
    ensures types { IfOk result (λ tables. AreTypeRows tables.types) }
    ensures stations { IfOk result (λ tables. AreStationRows tables.stations) }
    ensures stock { IfOk result (λ tables. AreStockRows tables.stock) }
    ensures trips { IfOk result (λ tables. AreTripRows tables.trips) }
    ensures links { IfOk result (λ tables. AreLinkRows tables.links) }
    ensures weights { IfOk result (λ tables. IsWeightsRow tables.weights) }
{
    let weights = weights(alloc, table(weights_text)?)?;
    let units = unit_rows(alloc, texts)?;
    let runs = trip_rows(alloc, texts)?;
    Ok(Tables {
        types: units.types,
        stations: units.stations,
        stock: units.stock,
        trips: runs.trips,
        links: runs.links,
        weights,
    })
}

/// What is told of the day of these tables, or why they make none.
pub(crate) fn told(alloc: Global, texts: &Texts<'_>) -> Result<String, Fail> {
    let tables = tables_of(alloc, texts, b"carriage,shortage,shunting\n1,1,100\n")?;
    let built = Instance::build(alloc, tables);
    Ok(told_of_built(alloc, built)?)
}

/// What is told of a day that was built, or why it was not.
fn told_of_built(
    alloc: Global,
    built: Result<Instance, InstanceRefusal>,
) -> Result<String, AllocError> {
    match built {
        Ok(day) => told_of(alloc, &day),
        Err(why) => format!(in alloc; "{why:?}"),
    }
}

/// What is told of a day.
fn told_of(alloc: Global, day: &Instance) -> Result<String, AllocError> {
    let mut text = String::new(alloc);
    write_day(&mut text, day)?;
    Ok(text)
}

/// Writes what is told of a day.
fn write_day(text: &mut String, day: &Instance) -> Result<(), AllocError> {
    let (types, shunting) = (day.types().len(), day.weights().shunting);
    write!(text, "{types} types, shunting {shunting}\n")?;
    write_stations(text, day)?;
    write_homes(text, day)?;
    write_compositions(text, day)?;
    write_trips(text, day)?;
    write_links(text, day)?;
    write_chains(text, day)?;
    write_handovers(text, day)
}

/// Writes of each station its platform, and the units of each type there.
fn write_stations(text: &mut String, day: &Instance) -> Result<(), AllocError> {
    for station in 0..day.stations() {
        write!(
            text,
            "platform {}",
            day.station(StationNo(station)).platform
        )?;
        write_stock(text, day, StationNo(station))?;
    }
    Ok(())
}

/// Writes how many units of each type stand at a station, and how many are wanted there.
fn write_stock(text: &mut String, day: &Instance, station: StationNo) -> Result<(), AllocError> {
    for number in 0..day.types().len() {
        let unit_type = TypeNo(number);
        write!(
            text,
            ", {} to {}",
            day.start(station, unit_type),
            day.end(station, unit_type)
        )?;
    }
    text.push_str("\n")
}

/// Writes where the units are at home.
fn write_homes(text: &mut String, day: &Instance) -> Result<(), AllocError> {
    text.push_str("homes")?;
    for unit in 0..day.units() {
        write!(text, " {}", day.unit(UnitNo(unit)).home.0)?;
    }
    text.push_str("\n")
}

/// Writes the types of each composition.
fn write_compositions(text: &mut String, day: &Instance) -> Result<(), AllocError> {
    for comp in 0..day.catalogue().len() {
        text.push_str("composition")?;
        for unit_type in day.catalogue().get(CompNo(comp)).units() {
            write!(text, " {}", unit_type.0)?;
        }
        text.push_str("\n")?;
    }
    Ok(())
}

/// Writes of each trip its stations, the links that lead to it and on from it, and the compositions that it may have.
fn write_trips(text: &mut String, day: &Instance) -> Result<(), AllocError> {
    for number in 0..day.trips() {
        let trip = TripNo(number);
        write_trip(text, day.trip(trip), day.incoming(trip), day.outgoing(trip))?;
        for comp in 0..day.catalogue().len() {
            if day.admits(trip, CompNo(comp)) {
                write!(text, " {comp}")?;
            }
        }
        text.push_str("\n")?;
    }
    Ok(())
}

/// Writes the stations of a trip, and the links that lead to it and on from it.
fn write_trip(
    text: &mut String,
    trip: &Trip,
    incoming: Option<LinkNo>,
    outgoing: Option<LinkNo>,
) -> Result<(), AllocError> {
    write!(text, "trip {} to {}", trip.from.0, trip.to.0)?;
    write!(text, ", {incoming:?}, {outgoing:?}:")
}

/// Writes of each link whether it reverses trains.
fn write_links(text: &mut String, day: &Instance) -> Result<(), AllocError> {
    for link in 0..day.links() {
        write!(text, "reverse {}\n", day.link(LinkNo(link)).reverse)?;
    }
    Ok(())
}

/// Writes the trips of each chain.
fn write_chains(text: &mut String, day: &Instance) -> Result<(), AllocError> {
    for chain in 0..day.chains() {
        text.push_str("chain")?;
        for trip in day.chain(chain) {
            write!(text, " {}", trip.0)?;
        }
        text.push_str("\n")?;
    }
    Ok(())
}

/// Writes of each hand-over its link and its second trip.
fn write_handovers(text: &mut String, day: &Instance) -> Result<(), AllocError> {
    for number in 0..day.handovers() {
        let handover = day.handover(number);
        write!(
            text,
            "handover of {} to {}\n",
            handover.link.0, handover.second.0
        )?;
    }
    Ok(())
}
