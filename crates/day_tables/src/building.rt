//! The building of a day from its tables: the entries that rows make, their numbers by name, and refusals.

pub mod accepted;
pub mod day_tables;
pub mod entries;
pub mod left_tables;
pub(crate) mod link_rows;
pub mod link_tables;
pub(crate) mod linked;
pub mod named;
pub mod refusal;
pub mod tables;
