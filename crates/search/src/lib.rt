//! Branch and bound over any relaxation: what it finds is proved by its tree, whatever its improver and its advisors
//! propose.
#![tactic(auto)]

mod evaluation;
pub mod found;
mod frontier;
mod improving;
mod nodes;
mod rounds;
pub mod solving;
mod work;

pub use found::{Best, Found};
pub use solving::{Allowed, solve, solve_with};
