//! The command `replan`.

use plain_words::Text;
use rail_base::Minute;

/// How the rest of a disturbed day is to be planned, by the command `replan`.
#[derive(Drop)]
pub struct Replanning {
    /// The folder with the tables of the day, its plan and the table of cancelled trips.
    pub dir: Text,
    /// The minute at which the day is disturbed.
    pub minute: Minute,
    /// What it costs to give a trip other types of units than were planned, 0 to 1,000,000.
    pub change: u32,
    /// Branchings that are granted, 0 to 4,000.
    pub nodes: u32,
    /// Rounds of advice at each node, 0 to 100.
    pub rounds: u8,
    /// Evaluations of the bound that the improver may take at the root, 0 to 100,000; it is not asked where they are 0.
    pub evaluations: u32,
}

/// What a changed trip costs by `replan` where the words say nothing of it.
pub const USUAL_CHANGE: u32 = 0;
/// Branchings that `replan` is granted where the words say nothing of them.
pub const USUAL_NODES_OF_REPLAN: u32 = 200;
/// Rounds of advice at each node of `replan` where the words say nothing of them.
pub const USUAL_ROUNDS_OF_REPLAN: u32 = 20;
/// Evaluations that the improver of `replan` may take at the root where the words say nothing of them.
pub const USUAL_EVALUATIONS_OF_REPLAN: u32 = 0;
