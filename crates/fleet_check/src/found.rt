//! What a search for a fleet finds: the fleet, a plan with it, and the tree of boxes that proves what is said.

use answer_text::Head;
use fleet_boxes::Boxes;
use fleets::Counts;
use timetable::NamedPlan;

/// A fleet that is chosen, and a plan that runs with it.
#[derive(Drop)]
pub struct Chosen {
    /// How many units of each type stand at each station, by station and then type.
    pub stock: Counts,
    /// The plan, whose units are numbered by station and then type.
    pub plan: NamedPlan,
}

/// The most splits that a search for a fleet may be granted.
pub const MAX_SPLITS: u32 = 200;

/// The most nodes that its boxes then have: a split adds two.
pub const MAX_BOX_NODES: u32 = 2 * MAX_SPLITS + 1;

/// What is found of all fleets of a day.
#[derive(Drop)]
pub struct Fleet {
    /// What is said of them: costs are those of a plan and of all units of its fleet together.
    pub head: Head,
    /// How many splits the boxes have.
    pub splits: u32,
    /// The tree of boxes that proves it.
    pub boxes: Boxes,
    /// The fleet and the plan, where the head has a plan.
    pub chosen: Option<Chosen>,
}
