//! The commands of the planner's desk.

use crate::fleet_planning::FleetPlanning;
use crate::planning::Planning;
use crate::replanning::Replanning;
use crate::swapping::Swapping;
use crate::week_planning::WeekPlanning;

/// What the planner's desk is asked to do.
#[derive(Drop)]
pub enum Command {
    /// Plan the day of a folder.
    Plan(Planning),
    /// Swap units of the plan of a folder, so that as many urgent ones as can be end the day at a depot.
    Urgent(Swapping),
    /// Plan the rest of the day of a folder, which is disturbed at a minute, so that it keeps what has happened.
    Replan(Replanning),
    /// Plan the days of a week, each in a folder of its own.
    Week(WeekPlanning),
    /// Find the fleet of least cost for the day of a folder, and a plan with it.
    Fleet(FleetPlanning),
}
