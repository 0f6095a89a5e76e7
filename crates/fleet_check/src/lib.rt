//! The fleet of least cost as it is written down, with the tree of boxes that proves what is said of all fleets: the
//! prices that are read for it, and the check of it.
#![tactic(auto)]

mod amounts;
mod box_trees;
mod boxes;
mod checking;
mod chosen;
mod day_of_tables;
mod found;
pub mod laws;
mod leaves;
mod price_table;
mod proved_nodes;
mod refusal;
mod shape;
mod verdict;

pub use amounts::with_units;
pub use boxes::{box_of, place_of};
pub use checking::check_fleet;
pub use chosen::cost_of;
pub use day_of_tables::DayOfTables;
pub use found::{Chosen, Fleet, MAX_BOX_NODES, MAX_SPLITS};
pub use price_table::read_prices;
pub use refusal::PriceRefusal;
pub use verdict::FleetVerdict;
