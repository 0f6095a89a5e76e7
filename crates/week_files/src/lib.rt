//! Reading the folder of a week: the days in its folders `1`, `2` and so on, or the first that is not read.
#![tactic(auto)]

pub mod days;
pub mod error;

pub use days::days_in;
pub use error::DayError;
