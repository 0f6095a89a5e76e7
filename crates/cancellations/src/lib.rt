//! The trips of a day that are cancelled at a minute, as a table tells them, and the later day without them.
#![tactic(auto)]

pub mod cancelling;
pub mod later_day;
pub mod laws;
pub mod past;
pub mod without_cancelled;

pub use cancelling::{CancelRefusal, Cancelled, read_cancelled};
pub use later_day::Later;
pub use past::has_left;
pub use without_cancelled::later;
