//! How many units stand in the yards of the stations, and which units a plan names where the counts allow it.
#![tactic(auto)]

mod count_table;
mod faults;
mod ledger;
pub mod naming_laws;
pub mod serving_laws;
pub mod solution_laws;

pub use count_table::place_of;
pub use faults::StockFault;
pub use ledger::Ledger;
