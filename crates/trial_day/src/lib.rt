//! Trial days: days of a seed and a number of trips, the same ones each time.
#![tactic(auto)]

mod building;
pub mod draws;
pub mod laws;
mod rows;

pub use building::{trial_instance, trial_tables};
pub use draws::Draws;
