//! The check of a claim: whether its tree proves what it says of all solutions of a relaxation, or the first reason why
//! it does not.
#![tactic(auto)]

pub mod checker;
mod heads;
pub mod laws;
mod leaves;
mod nodes;
mod path;
mod shape;
pub mod verdict;

pub use checker::{Checker, checked};
pub use verdict::{Reason, Verdict};
