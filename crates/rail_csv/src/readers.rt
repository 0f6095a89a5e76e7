//! The seven readers: what each table is read as.
//!
//! The first thing that is wrong is `WrongHeader`; or else what is wrong in the first wrong row: `FieldCount`, then
//! `NotUtf8`, then what the leftmost wrong column says; or else `TooManyRows`. Of the weights alone `NoRow` comes after
//! all of these. `NoMemory` is want of memory, and may come in place of any answer.

ghost use Rattle.std.specs.Prelude.{◌≤◌, length, IfOk};
ghost use Rattle.rail_base.specs.Answers.{Gives, GivesRows};
ghost use Rattle.rail_csv.specs.Rows.{AreLinkRows, ArePlanRows, AreStationRows, AreStockRows, AreTripRows, AreTypeRows};
ghost use Rattle.rail_csv.specs.Rows.{IsWeightsRow};
ghost use Rattle.rail_csv.specs.Tables.{is_memory, link_rows_of, plan_rows_of, station_rows_of, stock_rows_of};
ghost use Rattle.rail_csv.specs.Tables.{trip_rows_of, type_rows_of};
ghost use Rattle.rail_csv.specs.Tables.{weights_row_of};

use crate::header_words::header;
use crate::limits::{
    FEWEST_LINK_COLUMNS, FEWEST_PLAN_COLUMNS, FEWEST_STATION_COLUMNS, FEWEST_STOCK_COLUMNS,
    FEWEST_TRIP_COLUMNS, FEWEST_TYPE_COLUMNS, FEWEST_WEIGHT_COLUMNS,
};
use crate::reading::read_table;
use crate::refusal::TableRefusal;
use crate::rows::{LinkRow, PlanRow, StationRow, StockRow, Table, TripRow, TypeRow, WeightsRow};
use rail_base::limits::{
    MAX_LINKS, MAX_PLAN_ROWS, MAX_STATIONS, MAX_STOCK_ROWS, MAX_TABLE_BYTES, MAX_TRIPS, MAX_TYPES,
    MAX_WEIGHT_ROWS,
};
use std::alloc::Global;

/// Reads the types table, of at most `MAX_TYPES` rows: its rows, or the first thing that is wrong. Its columns are
/// `type,carriages,seats,metres,family`, and `first` in its second version; a row of the first version has 0 there. The
/// bytes are at most `MAX_TABLE_BYTES`.
#[tactic(auto, unfolding(crate::specs::Tables::type_rows_of))]
pub fn types(alloc: Global, bytes: &[u8]) -> Result<Vec<TypeRow>, TableRefusal>
    requires { length bytes.now ≤ MAX_TABLE_BYTES }
    ensures exact { GivesRows is_memory result (type_rows_of bytes.now) }
    ensures rows { IfOk result (λ v. AreTypeRows v.items) }
{
    read_table(
        alloc,
        header(Table::Types),
        FEWEST_TYPE_COLUMNS,
        MAX_TYPES as u32,
        bytes,
    )
}

/// Reads the stations table, of at most `MAX_STATIONS` rows: its rows, or the first thing that is wrong. Its columns
/// are `station,platform,reallocation`. The bytes are at most `MAX_TABLE_BYTES`.
#[tactic(auto, unfolding(crate::specs::Tables::station_rows_of))]
pub fn stations(alloc: Global, bytes: &[u8]) -> Result<Vec<StationRow>, TableRefusal>
    requires { length bytes.now ≤ MAX_TABLE_BYTES }
    ensures exact { GivesRows is_memory result (station_rows_of bytes.now) }
    ensures rows { IfOk result (λ v. AreStationRows v.items) }
{
    read_table(
        alloc,
        header(Table::Stations),
        FEWEST_STATION_COLUMNS,
        MAX_STATIONS as u32,
        bytes,
    )
}

/// Reads the stock table, of at most `MAX_STOCK_ROWS` rows: its rows, or the first thing that is wrong. Its columns
/// are `station,type,start,end`. The bytes are at most `MAX_TABLE_BYTES`.
#[tactic(auto, unfolding(crate::specs::Tables::stock_rows_of))]
pub fn stock(alloc: Global, bytes: &[u8]) -> Result<Vec<StockRow>, TableRefusal>
    requires { length bytes.now ≤ MAX_TABLE_BYTES }
    ensures exact { GivesRows is_memory result (stock_rows_of bytes.now) }
    ensures rows { IfOk result (λ v. AreStockRows v.items) }
{
    read_table(
        alloc,
        header(Table::Stock),
        FEWEST_STOCK_COLUMNS,
        MAX_STOCK_ROWS as u32,
        bytes,
    )
}

/// Reads the trips table, of at most `MAX_TRIPS` rows: its rows, or the first thing that is wrong. Its columns are
/// `trip,from,departure,to,arrival,km,demand`, and `first` in its second version; a row of the first version has 0
/// there. The bytes are at most `MAX_TABLE_BYTES`.
#[tactic(auto, unfolding(crate::specs::Tables::trip_rows_of))]
pub fn trips(alloc: Global, bytes: &[u8]) -> Result<Vec<TripRow>, TableRefusal>
    requires { length bytes.now ≤ MAX_TABLE_BYTES }
    ensures exact { GivesRows is_memory result (trip_rows_of bytes.now) }
    ensures rows { IfOk result (λ v. AreTripRows v.items) }
{
    read_table(
        alloc,
        header(Table::Trips),
        FEWEST_TRIP_COLUMNS,
        MAX_TRIPS as u32,
        bytes,
    )
}

/// Reads the links table, of at most `MAX_LINKS` rows: its rows, or the first thing that is wrong. Its columns are
/// `kind,arriving,arriving2,departing,departing2,reverse,uncouple,couple`, and `exchange` in its second version; a row
/// of the first version has `no` there. The bytes are at most `MAX_TABLE_BYTES`.
#[tactic(auto, unfolding(crate::specs::Tables::link_rows_of))]
pub fn links(alloc: Global, bytes: &[u8]) -> Result<Vec<LinkRow>, TableRefusal>
    requires { length bytes.now ≤ MAX_TABLE_BYTES }
    ensures exact { GivesRows is_memory result (link_rows_of bytes.now) }
    ensures rows { IfOk result (λ v. AreLinkRows v.items) }
{
    read_table(
        alloc,
        header(Table::Links),
        FEWEST_LINK_COLUMNS,
        MAX_LINKS as u32,
        bytes,
    )
}

/// Reads the weights table: its one row, or the first thing that is wrong. Its columns are
/// `carriage,shortage,shunting`. The bytes are at most `MAX_TABLE_BYTES`.
pub fn weights(alloc: Global, bytes: &[u8]) -> Result<WeightsRow, TableRefusal>
    requires { length bytes.now ≤ MAX_TABLE_BYTES }
    ensures exact { Gives is_memory result (weights_row_of bytes.now) }
    ensures row { IfOk result (λ row. IsWeightsRow row) }
{
    the_weights(alloc, bytes)
}

/// The one row of the weights table.
#[tactic(auto, unfolding(crate::specs::Tables::weights_row_of))]
fn the_weights(alloc: Global, bytes: &[u8]) -> Result<WeightsRow, TableRefusal>
    requires { length bytes.now ≤ MAX_TABLE_BYTES }
    ensures { Gives is_memory result (weights_row_of bytes.now) }
{
    let rows: Vec<WeightsRow> = read_table(
        alloc,
        header(Table::Weights),
        FEWEST_WEIGHT_COLUMNS,
        MAX_WEIGHT_ROWS as u32,
        bytes,
    )?;
    match rows.as_slice() {
        [] => Err(TableRefusal::NoRow),
        [row, ..] => Ok(*row),
    }
}

/// Reads the plan table, of at most `MAX_PLAN_ROWS` rows: its rows, or the first thing that is wrong. Its columns are
/// `trip,units`. The bytes are at most `MAX_TABLE_BYTES`.
#[tactic(auto, unfolding(crate::specs::Tables::plan_rows_of))]
pub fn plan(alloc: Global, bytes: &[u8]) -> Result<Vec<PlanRow>, TableRefusal>
    requires { length bytes.now ≤ MAX_TABLE_BYTES }
    ensures exact { GivesRows is_memory result (plan_rows_of bytes.now) }
    ensures rows { IfOk result (λ v. ArePlanRows v.items) }
{
    read_table(
        alloc,
        header(Table::Plan),
        FEWEST_PLAN_COLUMNS,
        MAX_PLAN_ROWS as u32,
        bytes,
    )
}
