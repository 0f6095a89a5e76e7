//! What every crate of the planner names: numbers that tell what they count, names, words, bytes, limits.
#![tactic(auto)]

pub mod limits;
pub mod lists;
pub mod memory;
pub mod name;
pub mod numbers;
pub mod times;
pub mod words;

pub use lists::Bytes;
pub use memory::NoMemory;
pub use name::Name;
pub use numbers::{CompNo, LinkNo, Minute, Money, NodeNo, StationNo, TripNo, TypeNo, UnitNo};
pub use times::clock;
pub use words::Words;
