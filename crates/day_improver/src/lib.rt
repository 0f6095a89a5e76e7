//! The improver of days: good multipliers and good picks of a day, within so many evaluations of its bound and so many
//! moves.
//!
//! Nothing is asked of what it proposes: the search tests it. What is proved is that each call is safe and ends.
#![tactic(auto)]

mod building;
mod cuts;
mod draws;
pub mod improver;
mod layouts;
mod plan_search;
mod rays;
mod shares;
pub mod watching;
mod weights;

pub use improver::DayImprover;
pub use watching::{NoWatcher, Progress, Watcher};
