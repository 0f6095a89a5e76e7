//! Days that make a week, and the units of a week from day to day: which unit of the week each unit of a day is, where
//! the plans of the days are given, and what ties week plans to the plans of single days.
#![tactic(auto)]

pub mod laws;
pub mod naming;
pub mod nights;
pub mod refusal;
mod rows;
pub mod standing;

pub use naming::{UnitNames, WeekNames, names};
pub use nights::{MAX_DAYS, week_fault};
pub use refusal::WeekRefusal;
