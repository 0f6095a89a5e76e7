//! The commands of the program.

use plain_words::Text;

/// What the program is asked to do.
#[derive(Drop)]
pub enum Command {
    /// Plan the day of a folder.
    Plan {
        /// The folder.
        dir: Text,
        /// Branchings that are granted, 0 to 4,000.
        nodes: u32,
        /// Rounds of advice at each node, 0 to 100.
        rounds: u8,
    },
    /// Say whether the plan of a folder runs.
    Simulate {
        /// The folder.
        dir: Text,
    },
    /// Say whether the answer of a folder is valid.
    Check {
        /// The folder.
        dir: Text,
    },
    /// Report the duties of the units in the answer of a folder.
    Duties {
        /// The folder.
        dir: Text,
    },
    /// Report the yards in the answer of a folder.
    Yards {
        /// The folder.
        dir: Text,
    },
    /// Report the costs of the answer of a folder.
    Costs {
        /// The folder.
        dir: Text,
    },
    /// Make a day and plan it.
    Trial {
        /// What the day is made from.
        seed: u32,
        /// The trips of the day, an even number from 2 to 400.
        trips: u32,
        /// Branchings that are granted, 0 to 4,000.
        nodes: u32,
        /// Rounds of advice at each node, 0 to 100.
        rounds: u8,
    },
}

/// The greatest number that a trial day may be made from.
pub const MAX_SEED: u32 = 4_294_967_295;
/// Branchings that are granted where the words say nothing of them.
pub const USUAL_NODES: u32 = 200;
/// Rounds of advice at each node where the words say nothing of them.
pub const USUAL_ROUNDS: u32 = 20;
