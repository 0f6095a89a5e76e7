//! The rules of a day: what it has, and what a link names, keeps and shunts. Which plans run and what they cost is
//! said by the pages of `specs/`, which have to be believed.
#![tactic(auto)]

pub mod heads;
pub mod links;
pub mod records;
pub mod turns;

pub use heads::Head;
pub use links::{copy_of, turned};
pub use records::{End, Link, LinkKind, LinkTrips, Station, Stock, Trip, Unit, UnitType, Weights};
pub use turns::{beyond, kept_length, staying};
