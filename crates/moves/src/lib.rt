//! Moves: a plan of compositions is changed by freeing the chains of some clusters and building them anew in the order
//! of time, under prices.
//!
//! Nothing is asked of the plans that moves find: whoever uses one settles it. What is proved is that each call is safe
//! and ends.
#![tactic(auto)]

pub mod beam;
mod candidates;
pub mod clusters;
pub mod counts;
pub mod events;
mod labels;
mod missing;
pub mod network;
pub mod plans;
mod reaches;

pub use beam::{Beam, Freedom};
pub use counts::Counts;
pub use network::Network;
pub use plans::Plan;
