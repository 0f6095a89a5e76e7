//! The one call of the planner's desk: it runs the command that words name over a folder, writes one document and
//! answers a status.
#![tactic(auto)]

pub mod document;
pub mod files;
mod fleet_finding;
pub mod outcome;
mod planning;
pub mod progress;
mod replanning;
mod run;
mod swapped_text;
mod swapping;
mod top;
mod week_planning;

pub use files::DeskFile;
pub use outcome::{DeskOutcome, FoundFleet, PlannedRest};
pub use progress::ProgressLines;
pub use top::{raildesk, raildesk_watched};
