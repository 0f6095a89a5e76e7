//! The command `plan`.

use plain_words::Text;

/// How a day is to be planned, by the command `plan`.
#[derive(Drop)]
pub struct Planning {
    /// The folder with the tables of the day.
    pub dir: Text,
    /// Branchings that are granted, 0 to 4,000.
    pub nodes: u32,
    /// Rounds of advice at each node, 0 to 100.
    pub rounds: u8,
    /// Evaluations of the bound that the improver may take at the root, 0 to 100,000.
    pub evaluations: u32,
    /// Whether the progress of the search is told.
    pub tells_progress: bool,
}

/// Evaluations of the bound that an improver may be granted at the root.
pub const MAX_EVALUATIONS: u32 = 100_000;
/// Branchings that `plan` is granted where the words say nothing of them.
pub const USUAL_NODES_OF_PLAN: u32 = 200;
/// Rounds of advice at each node of `plan` where the words say nothing of them.
pub const USUAL_ROUNDS_OF_PLAN: u32 = 0;
/// Evaluations that the improver of `plan` may take at the root where the words say nothing of them.
pub const USUAL_EVALUATIONS_OF_PLAN: u32 = 500;
