//! The day that is planned: what it holds and what can be asked of it, plans of it, and picks.

pub(crate) mod chains;
pub mod derived;
pub mod indices;
pub mod instance;
pub(crate) mod minutes;
pub mod picks;
pub mod plan;
pub mod records;
pub mod rule;
pub mod trip_entry;
pub mod turns;
mod yard_types;
