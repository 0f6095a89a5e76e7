//! The files that the desk reads.

ghost use Rattle.std.specs.Prelude.{◌≡◌, IfOk, string_bytes};
ghost use Rattle.std.specs.Fmt.{decimal};
ghost use Rattle.day_files.specs.Names.{path_of};
ghost use Rattle.desk_app.specs.FileNames.{name_of};

use day_files::{file_name, path_in};
use rail_base::NoMemory;
use rail_csv::Table;
use std::alloc::Global;

/// A file that the desk reads.
#[derive(Clone, Copy, Debug)]
pub enum DeskFile {
    /// The file of a table of the day, or that of its plan.
    OfTable(Table),
    /// The table of urgent units.
    UrgentUnits,
    /// The table of cancelled trips.
    CancelledTrips,
    /// The table of prices.
    Prices,
    /// The file of a table of the day of this number, of a week.
    OfDay(u32, Table),
}

/// The name of the table of urgent units, without the folder.
pub(crate) const URGENT_FILE: &str = "urgent.csv";

/// That of the table of cancelled trips.
pub(crate) const CANCELLED_FILE: &str = "cancelled.csv";

/// That of the table of prices.
pub(crate) const PRICES_FILE: &str = "fleet.csv";

impl DeskFile {
    /// The name of the file, without the folder; that of a day of a week is its path below the folder of the week, as
    /// `2/stock.csv`. The error is want of memory.
    pub fn name(&self, alloc: Global) -> Result<String, NoMemory>
        ensures { IfOk result (λ name. string_bytes name ≡ name_of self.now) }
    {
        match self {
            DeskFile::OfTable(table) => Ok(String::from_str(alloc, file_name(*table))?),
            DeskFile::UrgentUnits => Ok(String::from_str(alloc, URGENT_FILE)?),
            DeskFile::CancelledTrips => Ok(String::from_str(alloc, CANCELLED_FILE)?),
            DeskFile::Prices => Ok(String::from_str(alloc, PRICES_FILE)?),
            DeskFile::OfDay(day, table) => name_on_day(alloc, *day, *table),
        }
    }
}

/// The path of a table's file from the folder of the week to that of the day of this number. The error is want of
/// memory.
fn name_on_day(alloc: Global, day: u32, table: Table) -> Result<String, NoMemory>
    ensures { IfOk result (λ name. string_bytes name ≡ path_of (decimal day) table) }
{
    let folder = format!(in alloc; "{day}")?;
    path_in(alloc, folder.as_str(), file_name(table))
}
