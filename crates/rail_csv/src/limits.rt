//! The limits of what a field spells, beside those of its column, and how many columns a table has.

use rail_base::limits::MAX_MINUTES;

// Fields.

/// Digits of a number.
pub const MAX_NUMBER_DIGITS: usize = 9;
/// Bytes of a text of which `digits_value` tells the value.
pub const MAX_VALUE_BYTES: usize = 10;
/// Minutes of an hour.
pub const MINUTES_OF_AN_HOUR: u64 = 60;
/// The last hour that a time may have: that of the last minute of the second day.
pub const LAST_HOUR: u64 = MAX_MINUTES as u64 / MINUTES_OF_AN_HOUR - 1;
/// The last minute that a time may have in its hour.
pub const LAST_MINUTE_OF_AN_HOUR: u64 = MINUTES_OF_AN_HOUR - 1;

// Columns of the first version of each table: a later version has more.

/// Columns of the types table, in its first version.
pub const FEWEST_TYPE_COLUMNS: usize = 5;
/// Columns of the stations table.
pub const FEWEST_STATION_COLUMNS: usize = 3;
/// Columns of the stock table.
pub const FEWEST_STOCK_COLUMNS: usize = 4;
/// Columns of the trips table, in its first version.
pub const FEWEST_TRIP_COLUMNS: usize = 7;
/// Columns of the links table, in its first version.
pub const FEWEST_LINK_COLUMNS: usize = 8;
/// Columns of the weights table.
pub const FEWEST_WEIGHT_COLUMNS: usize = 3;
/// Columns of the plan table.
pub const FEWEST_PLAN_COLUMNS: usize = 2;
