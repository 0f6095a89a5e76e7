//! Which compositions follow one another by the links of a day.
#![tactic(auto)]

mod allowed;
pub mod edge;
pub mod graphs;
pub mod laws;
mod pairs;
mod turns;

pub use edge::{Edge, Shunt};
pub use graphs::Graphs;
pub use pairs::may_exchange;
