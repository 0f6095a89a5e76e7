//! What a day costs: a trip with its train, a link, and a whole day of picks or of a plan.
#![tactic(auto)]

pub mod costs;
pub mod laws;
pub mod links;
mod lists;
pub mod trips;

pub use costs::{CostParts, MAX_DAY_COST, cost, parts, plan_cost};
pub use links::link_cost;
pub use trips::trip_cost;
