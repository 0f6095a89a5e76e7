//! Boxes of fleets: the fleets between two, split by how many units of a type stand at a station, and what bounds on
//! the days with the greatest fleets of boxes prove of all fleets of a day.
#![tactic(auto)]

mod boxes;
pub mod laws;
mod nodes;
mod prices;

pub use boxes::FleetBox;
pub use nodes::{BoxNode, Boxes};
pub use prices::Prices;
