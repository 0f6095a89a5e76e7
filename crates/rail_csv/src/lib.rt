//! The tables of a day, read from CSV: typed rows, or the first thing that is wrong. For whoever reads one more table:
//! its records one by one, and what their fields spell.
#![tactic(auto)]

mod columns;
pub mod header_words;
pub mod laws;
pub mod limits;
mod readers;
mod reading;
pub mod refusal;
pub mod rows;
pub mod table_bytes;
mod table_rows;

pub use columns::{digits_value, name_of, number_of, time_of};
pub use header_words::{column_name, header};
pub use readers::{links, plan, stations, stock, trips, types, weights};
pub use reading::{field_bytes, field_text, is_header, next_record, records_in};
pub use refusal::TableRefusal;
pub use rows::{
    End, KindWord, LinkRow, PlanRow, StationRow, StockRow, Table, TripRow, TypeRow, UnitList,
    WeightsRow,
};
pub use table_bytes::TableBytes;
