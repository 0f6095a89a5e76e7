//! The bounds of a day: the least priced value of the picks that are near a region, and what picks that follow lack.
#![tactic(auto)]

mod amounts;
mod cells;
mod chain_rows;
pub mod changes;
mod constants;
mod costs;
mod credits;
pub mod day_bounds;
mod edge_prices;
mod following;
mod guide;
pub mod laws;
mod least_edges;
mod part_prices;
mod parts;
mod pass_room;
mod passes;
mod price_tables;
mod priced;
mod priced_costs;
mod row_values;
mod settling;
mod sizes;
mod slacks;
mod trains;
mod turn_prices;
mod workspaces;
mod yard_places;
mod yard_tables;

pub use changes::Change;
pub use day_bounds::DayBounds;
pub use sizes::{MAX_PRICED_VALUE, MAX_SLACK};
