//! The day that is planned: its types, stations, stock, trips and links, and plans of it.
#![tactic(auto)]

pub mod day;
pub mod laws;

pub use day::indices::Place;
pub use day::instance::Instance;
pub use day::minutes::insert_minute;
pub use day::picks::Picks;
pub use day::plan::NamedPlan;
pub use day::records::{Handover, Link, LinkKind, LinkTrips, Station, Stock, Trip, Unit, Weights};
pub use day::rule::{kept_by, link_holds};
pub use day::trip_entry::TripEntry;
pub use day::turns::staying_units;
pub use day_tables::{DayTable, InstanceRefusal, PlanRefusal, Rows, Tables, WrongTable, tables_of};
pub use rules::{beyond, copy_of, staying, turned};
