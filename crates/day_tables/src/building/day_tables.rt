//! The tables of a day and the plan, each read from bytes by its own reader in `rail_csv`, and the six tables of a day
//! together.

ghost use Rattle.std.specs.Prelude.{◌≡◌, ◌≤◌, ℕ, length, List, Result, IfOk, IfErr};
ghost use Rattle.rail_base.specs.Answers.{Gives};
ghost use Rattle.rail_csv.specs.Tables.{AreShort, is_memory};
ghost use Rattle.rail_csv.specs.declared.rows.Table.{Table};
ghost use Rattle.rail_csv.specs.declared.refusal.TableRefusal.{TableRefusal};
ghost use Rattle.day_tables.specs.DayTables.{AreTables, IsWrong, is_want_of_memory, of_table, tables_of};

use crate::building::tables::{Rows, Tables};
use rail_base::Bytes;
use rail_base::limits::MAX_TABLE_BYTES;
use rail_csv::{
    LinkRow, PlanRow, StationRow, StockRow, Table, TableBytes, TableRefusal, TripRow, TypeRow,
    WeightsRow,
};
use std::alloc::Global;
use thiserror::Error;

/// A table that is refused: the first thing that is wrong in its bytes, or want of memory.
#[derive(Clone, Copy, Debug, Error)]
#[error("a table is refused")]
pub struct WrongTable {
    /// Which table it is.
    pub table: Table,
    /// Why it is refused.
    pub why: TableRefusal,
}

/// A table of a day, or the plan of one, as its bytes are read.
pub trait DayTable: Drop {
    /// Which table it is.
    ghost table: { Table };

    /// What bytes are read as.
    ghost reading: { List ℕ → Result Self TableRefusal };

    /// What is known of an accepted table: it keeps within the ranges of its columns.
    ghost is_within: { Self → Type 0 };

    /// Which table it is.
    fn table() -> Table
        ensures { result ≡ table };

    /// Reads the table, or answers the first thing that is wrong in it, as the reader of that table in `rail_csv` does.
    /// There are no more bytes than a table may have.
    fn read(alloc: Global, bytes: &[u8]) -> Result<Self, TableRefusal>
        requires { length bytes.now ≤ MAX_TABLE_BYTES }
        ensures exact { Gives is_memory result (reading bytes.now) }
        ensures wrong { IfErr result (IsWrong table bytes.now) }
        ensures within { IfOk result is_within };
}

/// The table that bytes are read as, or why they are no such table. They are no longer than a table may be.
fn table_of<T: DayTable>(alloc: Global, bytes: &Bytes) -> Result<T, WrongTable>
    requires { length bytes.now ≤ MAX_TABLE_BYTES }
    ensures exact { Gives is_want_of_memory result (of_table T.table (T.reading bytes.now)) }
    ensures within { IfOk result T.is_within }
{
    match T::read(alloc, bytes.items()) {
        Ok(table) => Ok(table),
        Err(why) => Err(WrongTable {
            table: T::table(),
            why,
        }),
    }
}

/// The six tables that bytes are read as, in the order types, stations, stock, trips, links and weights: their rows, or
/// the first table that is refused and why. None of them is longer than a table may be. Want of memory may come at any.
pub fn tables_of(alloc: Global, bytes: &TableBytes) -> Result<Tables, WrongTable>
    requires { AreShort bytes.now }
    ensures exact { Gives is_want_of_memory result (tables_of bytes.now) }
    ensures within { IfOk result AreTables }
{
    Ok(Tables {
        types: table_of(alloc, &bytes.types)?,
        stations: table_of(alloc, &bytes.stations)?,
        stock: table_of(alloc, &bytes.stock)?,
        trips: table_of(alloc, &bytes.trips)?,
        links: table_of(alloc, &bytes.links)?,
        weights: table_of(alloc, &bytes.weights)?,
    })
}

impl DayTable for Rows<TypeRow> {
    ghost use Rattle.rail_csv.specs.Rows.{AreTypeRows};
    ghost use Rattle.rail_csv.specs.Tables.{type_rows_of};
    ghost use Rattle.rail_csv.specs.declared.rows.Table.TheVariants.{Types};

    ghost table = { Types };

    ghost reading = { type_rows_of };

    ghost is_within = { λ rows. AreTypeRows rows };

    fn table() -> Table {
        Table::Types
    }

    fn read(alloc: Global, bytes: &[u8]) -> Result<Rows<TypeRow>, TableRefusal> {
        Ok(Rows::of(rail_csv::types(alloc, bytes)?))
    }
}

impl DayTable for Rows<StationRow> {
    ghost use Rattle.rail_csv.specs.Rows.{AreStationRows};
    ghost use Rattle.rail_csv.specs.Tables.{station_rows_of};
    ghost use Rattle.rail_csv.specs.declared.rows.Table.TheVariants.{Stations};

    ghost table = { Stations };

    ghost reading = { station_rows_of };

    ghost is_within = { λ rows. AreStationRows rows };

    fn table() -> Table {
        Table::Stations
    }

    fn read(alloc: Global, bytes: &[u8]) -> Result<Rows<StationRow>, TableRefusal> {
        Ok(Rows::of(rail_csv::stations(alloc, bytes)?))
    }
}

impl DayTable for Rows<StockRow> {
    ghost use Rattle.rail_csv.specs.Rows.{AreStockRows};
    ghost use Rattle.rail_csv.specs.Tables.{stock_rows_of};
    ghost use Rattle.rail_csv.specs.declared.rows.Table.TheVariants.{Stock};

    ghost table = { Stock };

    ghost reading = { stock_rows_of };

    ghost is_within = { λ rows. AreStockRows rows };

    fn table() -> Table {
        Table::Stock
    }

    fn read(alloc: Global, bytes: &[u8]) -> Result<Rows<StockRow>, TableRefusal> {
        Ok(Rows::of(rail_csv::stock(alloc, bytes)?))
    }
}

impl DayTable for Rows<TripRow> {
    ghost use Rattle.rail_csv.specs.Rows.{AreTripRows};
    ghost use Rattle.rail_csv.specs.Tables.{trip_rows_of};
    ghost use Rattle.rail_csv.specs.declared.rows.Table.TheVariants.{Trips};

    ghost table = { Trips };

    ghost reading = { trip_rows_of };

    ghost is_within = { λ rows. AreTripRows rows };

    fn table() -> Table {
        Table::Trips
    }

    fn read(alloc: Global, bytes: &[u8]) -> Result<Rows<TripRow>, TableRefusal> {
        Ok(Rows::of(rail_csv::trips(alloc, bytes)?))
    }
}

impl DayTable for Rows<LinkRow> {
    ghost use Rattle.rail_csv.specs.Rows.{AreLinkRows};
    ghost use Rattle.rail_csv.specs.Tables.{link_rows_of};
    ghost use Rattle.rail_csv.specs.declared.rows.Table.TheVariants.{Links};

    ghost table = { Links };

    ghost reading = { link_rows_of };

    ghost is_within = { λ rows. AreLinkRows rows };

    fn table() -> Table {
        Table::Links
    }

    fn read(alloc: Global, bytes: &[u8]) -> Result<Rows<LinkRow>, TableRefusal> {
        Ok(Rows::of(rail_csv::links(alloc, bytes)?))
    }
}

impl DayTable for Rows<PlanRow> {
    ghost use Rattle.rail_csv.specs.Rows.{ArePlanRows};
    ghost use Rattle.rail_csv.specs.Tables.{plan_rows_of};
    ghost use Rattle.rail_csv.specs.declared.rows.Table.TheVariants.{Plan};

    ghost table = { Plan };

    ghost reading = { plan_rows_of };

    ghost is_within = { λ rows. ArePlanRows rows };

    fn table() -> Table {
        Table::Plan
    }

    fn read(alloc: Global, bytes: &[u8]) -> Result<Rows<PlanRow>, TableRefusal> {
        Ok(Rows::of(rail_csv::plan(alloc, bytes)?))
    }
}

impl DayTable for WeightsRow {
    ghost use Rattle.rail_csv.specs.Rows.{IsWeightsRow};
    ghost use Rattle.rail_csv.specs.Tables.{weights_row_of};
    ghost use Rattle.rail_csv.specs.declared.rows.Table.TheVariants.{Weights};

    ghost table = { Weights };

    ghost reading = { weights_row_of };

    ghost is_within = { λ row. IsWeightsRow row };

    fn table() -> Table {
        Table::Weights
    }

    fn read(alloc: Global, bytes: &[u8]) -> Result<WeightsRow, TableRefusal> {
        rail_csv::weights(alloc, bytes)
    }
}
