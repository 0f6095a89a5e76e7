//! Regions of picks and their cuts, multipliers and slacks, trees of cuts, relaxations, and what a tree proves.
#![tactic(auto)]

pub mod claims;
pub mod cuts;
pub mod laws;
pub mod multipliers;
pub mod regions;
pub mod relaxation;
pub mod sets;
pub mod slacks;
pub mod tree;

pub use claims::{Claim, ClaimHead};
pub use cuts::{Cut, Mark, Side};
pub use multipliers::{Entry, Multipliers, PutRefusal};
pub use regions::Region;
pub use relaxation::{BoundAnswer, Relaxation, Settled, Weight, is_positive};
pub use sets::CompositionSet;
pub use slacks::Slacks;
pub use tree::{Node, Tree};
