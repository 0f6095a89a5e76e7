//! The days that tables make: their rows, accepted one table after another, or the first test that fails.
#![tactic(auto)]

pub mod building;

pub use building::accepted::{AcceptedRows, accept};
pub use building::day_tables::{DayTable, WrongTable, tables_of};
pub use building::entries::{longest_between, row_after};
pub use building::left_tables::take_out;
pub use building::link_tables::{Side, links_by_trip};
pub use building::named::{HasName, find_name};
pub use building::refusal::{InstanceRefusal, PlanRefusal};
pub use building::tables::{Rows, Tables};
