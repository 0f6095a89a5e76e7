//! Advisors: what is asked, at each open node of a search, for multipliers and a cut to try there.
#![tactic(auto)]

pub mod advisor;
pub mod diver;
pub mod proposal;
pub mod subgradient;

pub use advisor::{Advisor, Look, Word};
pub use diver::Diver;
pub use proposal::Proposal;
pub use subgradient::Subgradient;
