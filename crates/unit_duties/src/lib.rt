//! The duties of a plan's units, and plans of named units that are made of picks.
#![tactic(auto)]

mod broken;
pub mod by_unit;
pub mod laws;
mod naming;
mod order;
pub mod plans;
pub mod refusal;
pub mod stops;
mod trains;
mod yards;

pub use by_unit::duties;
pub use plans::{name_units, name_units_from};
pub use refusal::DutyRefusal;
pub use stops::{Duties, Stop};
