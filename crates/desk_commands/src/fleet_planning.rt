//! The command `fleet`.

use plain_words::Text;

/// How the fleet of least cost is to be found, by the command `fleet`.
#[derive(Drop)]
pub struct FleetPlanning {
    /// The folder with the tables of the day and the table of prices.
    pub dir: Text,
    /// Branchings that are granted for the day of each box of fleets, 0 to 200.
    pub nodes: u32,
    /// Rounds of advice at each node, 0 to 100.
    pub rounds: u8,
    /// Splits of boxes of fleets that are granted, 0 to 200.
    pub splits: u32,
    /// Evaluations of the bound that the improver may take at the root of each day, 0 to 100,000; it proposes nothing
    /// where they are 0.
    pub evaluations: u32,
}

/// Branchings that `fleet` may be granted for the day of each box.
pub const MAX_NODES_OF_FLEET: u32 = 200;
/// Splits of boxes that `fleet` may be granted.
pub const MAX_SPLITS_OF_FLEET: u32 = 200;
/// Branchings that `fleet` is granted for each day where the words say nothing of them.
pub const USUAL_NODES_OF_FLEET: u32 = 50;
/// Rounds of advice at each node of `fleet` where the words say nothing of them.
pub const USUAL_ROUNDS_OF_FLEET: u32 = 20;
/// Splits that `fleet` is granted where the words say nothing of them.
pub const USUAL_SPLITS_OF_FLEET: u32 = 50;
/// Evaluations that the improver of `fleet` may take at a root where the words say nothing of them.
pub const USUAL_EVALUATIONS_OF_FLEET: u32 = 0;
