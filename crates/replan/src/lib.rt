//! Planning the rest of a day that is disturbed: a plan of the day without the trips that are cancelled, which keeps
//! what has happened and changes as little as is worth its price.
#![tactic(auto)]

pub mod disturbances;
pub mod laws;
mod naming;
mod past;
pub mod refusal;
pub mod replanning;
pub mod rest_of_day;

pub use cancellations::{CancelRefusal, Cancelled, Later, later, read_cancelled};
pub use day_planner::Allowed;
pub use disturbances::Disturbance;
pub use refusal::ReplanRefusal;
pub use replanning::{Replanned, improved_replan, replan};
pub use rest_of_day::{RestOfDay, rest_of};
