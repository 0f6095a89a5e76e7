//! The document of an answer: the one text of each answer, and which answer a text is.
#![tactic(auto)]

pub mod answer;
pub mod laws;
pub mod limits;
mod lines;
mod nodes;
mod numbers;
mod pieces;
mod printing;
mod reading;
pub mod refusal;

pub use answer::{Answer, Head, Runs};
pub use printing::{print, write_head, write_nodes, write_run};
pub use reading::read;
pub use refusal::AnswerRefusal;
