//! The answer to a day: the plan that a search finds, with its units named, and the tree that proves what is said of
//! all plans.
#![tactic(auto)]

pub mod answers;
pub mod laws;
pub mod naming;
pub mod planning;

pub use answers::{answer_with, runs_for, said};
pub use naming::{DayNaming, Naming};
pub use planning::{Scope, answer_by_made, answer_for, answer_to, improved_answer_for};
pub use search::Allowed;
