//! The command `week`.

use plain_words::Text;

/// How a week is to be planned, by the command `week`.
#[derive(Drop)]
pub struct WeekPlanning {
    /// The folder with the folders of the days, which are called by their numbers, counted from 1.
    pub dir: Text,
    /// How many days the week has, 1 to 7.
    pub days: u32,
    /// Branchings that are granted for each day, 0 to 4,000.
    pub nodes: u32,
    /// Rounds of advice at each node, 0 to 100.
    pub rounds: u8,
    /// Evaluations of the bound that the improver may take at the root of each day, 0 to 100,000; with 0 it proposes
    /// nothing.
    pub evaluations: u32,
}

/// The days that `week` may be asked for.
pub const MAX_DAYS_OF_WEEK: u32 = 7;
/// Branchings that `week` is granted for each day where the words say nothing of them.
pub const USUAL_NODES_OF_WEEK: u32 = 200;
/// Rounds of advice at each node of `week` where the words say nothing of them.
pub const USUAL_ROUNDS_OF_WEEK: u32 = 20;
/// Evaluations that the improver of `week` may take at a root where the words say nothing of them.
pub const USUAL_EVALUATIONS_OF_WEEK: u32 = 0;
