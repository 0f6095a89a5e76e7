//! The ascent: multipliers that raise the bound of a day, found by a deflected subgradient with a target level.
//!
//! Nothing is asked of the multipliers that it finds: whoever uses them evaluates them. What is proved is that each
//! call is safe and ends, and that the problem whose bound it raises stays what it is.
#![tactic(auto)]

mod directions;
pub mod layout;
mod levels;
mod numbers;
mod rounding;
pub mod steps;

pub use layout::{Layout, YardIndices};
pub use steps::{Ascent, Step};
