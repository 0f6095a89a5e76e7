//! The texts of refusals, and the file that each of them speaks of.

ghost use Rattle.std.specs.Prelude.{◌≡◌, IfOk, string_bytes};
ghost use Rattle.day_files.specs.Texts.{at_column, at_row, instance_file, instance_text, plan_text, table_text};

use rail_base::NoMemory;
use rail_csv::{Table, TableRefusal, column_name};
use std::alloc::Global;
use timetable::{InstanceRefusal, PlanRefusal};

/// The table that a refusal of the day speaks of. Want of memory speaks of none.
pub(crate) fn instance_file(refusal: &InstanceRefusal) -> Table
    ensures { result ≡ instance_file refusal.now }
{
    match refusal {
        InstanceRefusal::RepeatedName { table, .. } => *table,
        InstanceRefusal::UnknownName { table, .. } => *table,
        InstanceRefusal::RepeatedStock(_) => Table::Stock,
        InstanceRefusal::ArrivalNotAfterDeparture(_) => Table::Trips,
        InstanceRefusal::SameStation(_) => Table::Trips,
        InstanceRefusal::TripUsedTwice(_) => Table::Links,
        InstanceRefusal::WrongStation(_) => Table::Links,
        InstanceRefusal::TooEarly(_) => Table::Links,
        InstanceRefusal::WrongLinkFields(_) => Table::Links,
        InstanceRefusal::NoComposition(_) => Table::Trips,
        InstanceRefusal::TooManyUnits => Table::Stock,
        InstanceRefusal::TooManyCompositions => Table::Types,
        // Never asked for: want of memory names no table.
        InstanceRefusal::NoMemory => Table::Types,
    }
}

/// What is wrong in a table. Want of memory has no text.
pub(crate) fn table_text(
    alloc: Global,
    table: Table,
    refusal: &TableRefusal,
) -> Result<String, NoMemory>
    ensures { IfOk result (λ text. string_bytes text ≡ table_text table refusal.now) }
{
    match *refusal {
        TableRefusal::NotUtf8(row) => Ok(format!(in alloc; "row {row} is not UTF-8")?),
        TableRefusal::WrongHeader => fixed_text(alloc, "wrong header"),
        TableRefusal::FieldCount { row, found } => {
            Ok(format!(in alloc; "row {row} has {found} fields")?)
        }
        TableRefusal::BadNumber { row, column } => {
            at_column(alloc, table, row, column, "not a number")
        }
        TableRefusal::OutOfRange { row, column } => {
            at_column(alloc, table, row, column, "out of range")
        }
        TableRefusal::BadTime { row, column } => {
            at_column(alloc, table, row, column, "not a time")
        }
        TableRefusal::BadName { row, column } => {
            at_column(alloc, table, row, column, "not a name")
        }
        TableRefusal::BadWord { row, column } => {
            at_column(alloc, table, row, column, "not a word of this column")
        }
        TableRefusal::TooManyRows => fixed_text(alloc, "too many rows"),
        TableRefusal::NoRow => fixed_text(alloc, "no row"),
        TableRefusal::NoMemory => Ok(String::new(alloc)),
    }
}

/// Why tables make no day. Want of memory has no text.
pub(crate) fn instance_text(alloc: Global, refusal: &InstanceRefusal) -> Result<String, NoMemory>
    ensures { IfOk result (λ text. string_bytes text ≡ instance_text refusal.now) }
{
    match *refusal {
        InstanceRefusal::RepeatedName { row, .. } => at_row(alloc, row, "repeated name"),
        InstanceRefusal::UnknownName { table, row, column } => {
            at_column(alloc, table, row, column, "unknown name")
        }
        InstanceRefusal::RepeatedStock(row) => at_row(alloc, row, "repeated station and type"),
        InstanceRefusal::ArrivalNotAfterDeparture(row) => {
            at_row(alloc, row, "arrival is not after departure")
        }
        InstanceRefusal::SameStation(row) => at_row(alloc, row, "same station"),
        InstanceRefusal::TripUsedTwice(row) => at_row(alloc, row, "trip used twice"),
        InstanceRefusal::WrongStation(row) => {
            at_row(alloc, row, "trips do not meet at a station")
        }
        InstanceRefusal::TooEarly(row) => at_row(alloc, row, "departure before arrival"),
        InstanceRefusal::WrongLinkFields(row) => {
            at_row(alloc, row, "fields do not fit the kind")
        }
        InstanceRefusal::NoComposition(row) => at_row(alloc, row, "no composition fits"),
        InstanceRefusal::TooManyUnits => fixed_text(alloc, "too many units"),
        InstanceRefusal::TooManyCompositions => fixed_text(alloc, "too many compositions"),
        InstanceRefusal::NoMemory => Ok(String::new(alloc)),
    }
}

/// Why rows make no plan of the day. Want of memory has no text.
pub(crate) fn plan_text(alloc: Global, refusal: &PlanRefusal) -> Result<String, NoMemory>
    ensures { IfOk result (λ text. string_bytes text ≡ plan_text refusal.now) }
{
    match *refusal {
        PlanRefusal::WrongTrip(row) => at_row(alloc, row, "wrong trip"),
        PlanRefusal::UnknownUnit(row) => at_row(alloc, row, "unknown unit"),
        PlanRefusal::MissingTrip(row) => Ok(format!(in alloc; "trip missing after row {row}")?),
        PlanRefusal::NoMemory => Ok(String::new(alloc)),
    }
}

/// A text of fixed words.
pub(crate) fn fixed_text(alloc: Global, text: &str) -> Result<String, NoMemory>
    ensures { IfOk result (λ copy. string_bytes copy ≡ text.now) }
{
    Ok(String::from_str(alloc, text)?)
}

/// A text after its row.
fn at_row(alloc: Global, row: u32, text: &str) -> Result<String, NoMemory>
    ensures { IfOk result (λ whole. string_bytes whole ≡ at_row row text.now) }
{
    Ok(format!(in alloc; "row {row}: {text}")?)
}

/// A text after its row and the header word of its column.
fn at_column(
    alloc: Global,
    table: Table,
    row: u32,
    column: u32,
    text: &str,
) -> Result<String, NoMemory>
    ensures { IfOk result (λ whole. string_bytes whole ≡ at_column table row column text.now) }
{
    let word = column_name(table, column as usize);
    Ok(format!(in alloc; "row {row}, column {word}: {text}")?)
}
