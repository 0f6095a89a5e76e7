//! The names of files.

ghost use Rattle.std.specs.Prelude.{◌≡◌};
ghost use Rattle.day_files.specs.Names.{file_name};

use rail_csv::Table;

/// The name of a table's file, without the folder.
pub fn file_name(table: Table) -> &'static str
    ensures { result.now ≡ file_name table }
{
    match table {
        Table::Types => "types.csv",
        Table::Stations => "stations.csv",
        Table::Stock => "stock.csv",
        Table::Trips => "trips.csv",
        Table::Links => "links.csv",
        Table::Weights => "weights.csv",
        Table::Plan => "plan.csv",
    }
}
