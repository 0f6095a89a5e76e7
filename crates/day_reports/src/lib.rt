//! Reports of a plan as tables of text: the duties of units, the yards of stations, and what the plan costs.
#![tactic(auto)]

pub mod costs_report;
pub mod duties_report;
pub mod laws;
mod names;
mod report;
mod yard;
pub mod yards_report;

pub use costs_report::costs_table;
pub use duties_report::duties_table;
pub use yards_report::yards_table;
