//! The document of the answer to a week.
#![tactic(auto)]

pub mod printing;

pub use printing::print_week;
