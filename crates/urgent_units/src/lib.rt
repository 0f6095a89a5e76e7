//! Urgent units: how many units of one type can be brought to a depot by the end of the day, where the timetable and
//! the compositions stand, and units are swapped with others of their type while both are in one yard.
#![tactic(auto)]

mod best_naming;
mod cut;
pub mod laws;
mod leg_lists;
mod legs;
mod refusal;
mod swaps;
mod wish;
mod wish_table;
mod yard_flow;
mod yard_network;

pub use best_naming::{Swapped, urgent};
pub use cut::YardCut;
pub use legs::{Leg, LegList, Legs, UnitLegs};
pub use refusal::{UrgentRefusal, WishRefusal};
pub use wish::{Wish, WishUnits};
