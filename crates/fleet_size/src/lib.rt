//! The fleet of least cost: how many units of each type are to stand at each station, and a plan with them, found by
//! splitting boxes of fleets, with a proof over all fleets that a check recomputes.
#![tactic(auto)]

mod choosing;
mod concluding;
mod offers;
mod planning;
mod searching;
mod slots;

pub use planning::{Granted, MAX_DAY_BRANCHINGS};
pub use searching::fleet;
