//! The program's one call: it reads a day, plans it, says whether a plan of it runs or an answer to it is valid, and
//! reports on the plan of an answer; or it makes a trial day and plans it.
#![tactic(auto)]

mod answered;
pub mod laws;
pub mod reports;
mod run;
mod top;

pub use answer_check::{AnswerVerdict, check_answer, checking};
pub use commands::{Command, command, command_words, read_words};
pub use day_reports::{costs_table, duties_table, yards_table};
pub use plain_words::{Text, WordsRefusal};
pub use reports::ReportKind;
pub use run_documents::{AnswerError, Outcome, answer_file, outcome};
pub use top::railplan;
pub use trial_day::trial_tables;
