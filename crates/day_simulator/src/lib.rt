//! The day as a machine: it goes from event to event, and tells the first fault.
#![tactic(auto)]

mod balance;
pub mod day;
pub mod events;
pub mod laws;
mod links;
mod sequence;
mod trips;
pub mod whole_day;
mod yards;

pub use day::Day;
pub use events::{DayEvent, Stage, StepFault, UnitLocation};
pub use whole_day::{Ran, SimulateRefusal, simulate};
