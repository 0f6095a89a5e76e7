//! The document of the fleet of least cost.
#![tactic(auto)]

pub mod printing;

pub use printing::print_fleet;
