//! Whether an answer to a day is valid: whether its plan, where it has one, runs, and whether its tree proves what it
//! says of all plans.
#![tactic(auto)]

mod answered_plan;
pub mod checking;
pub mod laws;

pub use answered_plan::picks_of_plan;
pub use checking::{AnswerVerdict, check_answer, claim_of, claimed, verdict_on};
