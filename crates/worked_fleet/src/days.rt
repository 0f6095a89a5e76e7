//! A small day, with so many units at its one station where some stand.

ghost use Rattle.std.specs.Prelude.{◌≤◌, length, IfOk};
ghost use Rattle.rail_base.specs.declared.limits.TheConstants.{MAX_TABLE_BYTES};
ghost use Rattle.rail_csv.specs.Tables.{AreShort};
ghost use Rattle.timetable.specs.DayTables.{IsDayOfBytes};

use rail_base::Bytes;
use rail_csv::TableBytes;
use sample_days::{TURN, Texts, table};
use std::alloc::Global;
use std::test::Fail;
use timetable::{Instance, tables_of};

/// The tables of the stock with so many units at X, from none to three.
const STOCKS: &[&[u8]] = &[
    b"station,type,start,end\nX,A,0,0\n",
    b"station,type,start,end\nX,A,1,1\n",
    b"station,type,start,end\nX,A,2,2\n",
    b"station,type,start,end\nX,A,3,3\n",
];

/// The table of the stock with so many units at X; two where that is more than three, which no case asks for.
fn stock(units: u32) -> &'static [u8] {
    match STOCKS.get(units as usize) {
        Some(stock) => *stock,
        None => TURN.stock,
    }
}

/// The texts of the day with so many units at X.
pub(crate) fn texts(units: u32) -> Texts<'static> {
    Texts {
        stock: stock(units),
        ..TURN
    }
}

/// The bytes of a table.
fn bytes_of(alloc: Global, text: &[u8]) -> Result<Bytes, Fail>
    ensures { IfOk result (λ bytes. length bytes ≤ MAX_TABLE_BYTES) }
{
    Ok(Bytes::of(table(text)?.to_vec(alloc)?))
}

/// The bytes of the tables of the day with so many units at X.
pub(crate) fn tables(alloc: Global, units: u32) -> Result<TableBytes, Fail>
    ensures { IfOk result AreShort }
{
    tables_in(alloc, &texts(units))
}

/// The bytes of the tables of a day.
pub(crate) fn tables_in(alloc: Global, texts: &Texts<'_>) -> Result<TableBytes, Fail>
    ensures { IfOk result AreShort }
{
    Ok(TableBytes {
        types: bytes_of(alloc, texts.types)?,
        stations: bytes_of(alloc, texts.stations)?,
        stock: bytes_of(alloc, texts.stock)?,
        trips: bytes_of(alloc, texts.trips)?,
        links: bytes_of(alloc, texts.links)?,
        weights: bytes_of(alloc, b"carriage,shortage,shunting\n1,1,100\n")?,
    })
}

/// The day of tables. A table or a day that is refused fails the test.
pub(crate) fn made_of(alloc: Global, bytes: &TableBytes) -> Result<Instance, Fail>
    requires { AreShort bytes.now }
    ensures { IfOk result (IsDayOfBytes bytes.now) }
{
    let tables = tables_of(alloc, bytes)?;
    Ok(Instance::build(alloc, tables)?)
}
