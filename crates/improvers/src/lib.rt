//! Improvers: what is asked, at each open node of a search, for multipliers, picks and a cut. Nothing is asked of an
//! improver itself, so what it proposes is to be tested, as a search does.
#![tactic(auto)]

pub mod improver;

pub use improver::{Improvement, Improver, Incumbent, NoImprover, Seen};
