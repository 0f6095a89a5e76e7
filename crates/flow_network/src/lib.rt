//! A largest flow through a network, and the nodes that it leaves within reach of the source: the cut that shows that
//! no flow is larger.
#![tactic(auto)]

mod filling;
pub mod laws;
pub mod network;
mod reach;

pub use network::{Arc, Network, Reached};
