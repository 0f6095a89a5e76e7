//! The words of the header of each table.

ghost use Rattle.std.specs.Prelude.{◌≡◌, map};
ghost use Rattle.rail_csv.specs.Columns.{field};
ghost use Rattle.rail_csv.specs.Tables.{header_of, column_name};

use crate::rows::Table;

/// The header words of a table, in its last version: an earlier version has a front of them.
pub fn header(table: Table) -> &'static [&'static str]
    ensures { map (λ word. word.now) result.now ≡ header_of table }
{
    match table {
        Table::Types => &["type", "carriages", "seats", "metres", "family", "first"],
        Table::Stations => &["station", "platform", "reallocation"],
        Table::Stock => &["station", "type", "start", "end"],
        Table::Trips => &[
            "trip",
            "from",
            "departure",
            "to",
            "arrival",
            "km",
            "demand",
            "first",
        ],
        Table::Links => &[
            "kind",
            "arriving",
            "arriving2",
            "departing",
            "departing2",
            "reverse",
            "uncouple",
            "couple",
            "exchange",
        ],
        Table::Weights => &["carriage", "shortage", "shunting"],
        Table::Plan => &["trip", "units"],
    }
}

/// The header word of a column, counted from 0; an empty text where the table has no such column.
pub fn column_name(table: Table, column: usize) -> &'static str
    ensures { result.now ≡ column_name table column }
{
    match header(table).get(column) {
        Some(word) => *word,
        None => "",
    }
}
