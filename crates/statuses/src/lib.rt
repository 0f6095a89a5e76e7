//! The statuses that a run of a program ends with, and the writing of its one document, which comes to one of them.
#![tactic(auto)]

pub mod status;
pub mod writing;

pub use status::{BOUNDED, FAILURE, NO_MEMORY, REFUSED, SUCCESS, UNREAD, UNWRITTEN, USAGE};
pub use writing::write_document;
