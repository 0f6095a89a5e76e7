//! Plans a week: up to seven days, each planned and proved by itself, with one number for each unit all week, and what
//! their answers say together of all week plans.
#![tactic(auto)]

mod answering;
pub mod answers;
pub mod heads;
pub mod laws;
pub mod planning;

pub use answers::{Answers, Week};
pub use heads::head_of;
pub use planning::week;
