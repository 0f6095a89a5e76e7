//! The document of the answer to a disturbed day.
#![tactic(auto)]

pub mod printing;

pub use printing::print_replanned;
