//! An edge: a composition that arrives and one that may depart after it.

use rail_base::CompNo;

/// What is done to a train between an arriving and a departing trip.
#[derive(Clone, Copy, Debug)]
pub enum Shunt {
    /// The same units go on.
    Keep,
    /// Units are uncoupled, and given to the yard.
    Uncouple {
        /// How many are uncoupled, one at least.
        units: u8,
    },
    /// Units are coupled, which were taken from the yard.
    Couple {
        /// How many are coupled, one at least.
        units: u8,
    },
    /// Units are uncoupled and given to the yard, and units are coupled, which were taken from it. The two ends may be
    /// one and the same.
    Exchange {
        /// How many are uncoupled, one or two.
        uncouple: u8,
        /// How many are coupled, one or two.
        couple: u8,
    },
}

/// A step that a link allows from one composition of the day's catalogue to another. It takes 20 bytes.
#[derive(Clone, Copy)]
pub struct Edge {
    /// The composition of the arriving trip: at a join of the first arriving trip, the train in front.
    pub from: CompNo,
    /// The composition of the departing trip: at a split of the first departing trip, the train in front.
    pub to: CompNo,
    /// What a turn does, and `Keep` at a join or a split.
    pub shunt: Shunt,
    /// The composition of the second arriving trip of a join or of the second departing trip of a split, in that trip's
    /// own driving direction; nothing at a turn.
    pub part: Option<CompNo>,
}

// The memory of a day's edges is reckoned from the size of one.
const _: () = prove!(size_of::<Edge>() == 20);
