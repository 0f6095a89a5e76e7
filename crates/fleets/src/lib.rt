//! Fleets: how many units of each type stand at each station. A day is made of the tables of another, with the units of
//! a fleet in place of its stock.
#![tactic(auto)]

mod counts;
mod days;
pub mod laws;

pub use counts::Counts;
pub use days::{day_with, fleet_of};
