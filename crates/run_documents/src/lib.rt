//! What a run of the program comes to, and the document of it; and how the planning of a day ends.
#![tactic(auto)]

pub mod answer_file;
mod check_lines;
pub mod document;
pub mod outcome;
pub mod planning;

pub use answer_file::{AnswerError, answer_in};
pub use outcome::Outcome;
pub use planning::status_said;
