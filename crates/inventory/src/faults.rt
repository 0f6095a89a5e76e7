//! What is wrong with the counts of the yards.

use rail_base::{StationNo, TypeNo};

/// A fault of the yards: too few units at a departure, or another number than is wanted at the end of the day.
#[derive(Clone, Copy, Debug, PartialEq, Eq)]
pub enum StockFault {
    /// More units are taken than stand there.
    Short {
        /// The station.
        station: StationNo,
        /// The type of the units.
        unit_type: TypeNo,
        /// The place of the minute among the departure minutes of the station.
        place: u32,
        /// How many stand there after the departures of that minute: a number below zero.
        count: i64,
    },
    /// Another number of units than is wanted stands there at the end of the day.
    Balance {
        /// The station.
        station: StationNo,
        /// The type of the units.
        unit_type: TypeNo,
        /// How many stand there.
        count: i64,
    },
}
