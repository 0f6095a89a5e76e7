//! The commands of the planner's desk, and the words of a command line that make them.
#![tactic(auto)]

pub mod command;
pub mod fleet_planning;
pub mod laws;
pub mod planning;
pub mod reading;
pub mod replanning;
pub mod swapping;
pub mod week_planning;

pub use command::Command;
pub use fleet_planning::FleetPlanning;
pub use planning::Planning;
pub use reading::read_words;
pub use replanning::Replanning;
pub use swapping::Swapping;
pub use week_planning::WeekPlanning;
