//! What a day has: types of units, stations, units, trips and links, numbered in the order of their tables.

use rail_base::{Minute, Name, StationNo, TripNo, TypeNo};

/// A type of train units.
#[derive(Drop)]
pub struct UnitType {
    /// The name of the type.
    pub name: Name,
    /// Carriages of one unit, from 1 to 20.
    pub carriages: u32,
    /// Seats of second class of one unit, from 1 to 2,000.
    pub seats: u32,
    /// Metres of one unit, from 1 to 500.
    pub metres: u32,
    /// The name of its family: units of one family can be coupled.
    pub family: Name,
    /// Seats of first class of one unit, from 0 to 2,000.
    pub first: u32,
}

/// A station.
#[derive(Drop)]
pub struct Station {
    /// The name of the station.
    pub name: Name,
    /// The length of the platform, in metres.
    pub platform: u32,
    /// The minutes until a unit that was given to the yard is ready.
    pub reallocation: u32,
}

/// How many units of a type stand at a station at the start of the day, and how many are to stand there at its end.
#[derive(Clone, Copy)]
pub struct Stock {
    /// The station.
    pub station: StationNo,
    /// The type of the units.
    pub unit_type: TypeNo,
    /// Units at the start.
    pub start: u32,
    /// Units wanted at the end.
    pub end: u32,
}

/// A trip of the timetable.
#[derive(Drop)]
pub struct Trip {
    /// The name of the trip.
    pub name: Name,
    /// The station that it leaves from.
    pub from: StationNo,
    /// The minute at which it leaves.
    pub departure: Minute,
    /// The station that it goes to.
    pub to: StationNo,
    /// The minute at which it arrives.
    pub arrival: Minute,
    /// Its length, in kilometres.
    pub km: u32,
    /// How many seats of second class are wanted.
    pub demand: u32,
    /// How many seats of first class are wanted.
    pub first: u32,
}

/// The end of a train at which a turn may uncouple or couple units.
#[derive(Clone, Copy, Debug)]
pub enum End {
    /// At no end: it may not.
    None,
    /// At the front.
    Front,
    /// At the rear.
    Rear,
}

/// A link, by which units of trips that arrive stay in the train and leave with other trips.
#[derive(Clone, Copy)]
pub struct Link {
    /// What becomes of the units.
    pub kind: LinkKind,
    /// Whether each arriving train turns round, so that its front becomes its rear.
    pub reverse: bool,
}

/// What becomes of the units of a link's arriving trips.
#[derive(Clone, Copy)]
pub enum LinkKind {
    /// One train goes on as one train. Units may be uncoupled at the uncoupling end and coupled at the coupling end,
    /// which may be one and the same.
    Turn {
        /// The trip that the train arrives with.
        arriving: TripNo,
        /// The trip that it leaves with.
        departing: TripNo,
        /// The uncoupling end, of the arriving train after a reversal.
        uncouple: End,
        /// The coupling end, of the train that leaves.
        couple: End,
        /// Whether the turn may do both, with one or two units each; else it may do one of the two.
        exchange: bool,
    },
    /// Two trains go on as one, the first in front.
    Join {
        /// The trip that the front of the train arrives with.
        first: TripNo,
        /// The trip that the rest of it arrives with.
        second: TripNo,
        /// The trip that it leaves with.
        departing: TripNo,
    },
    /// One train goes on as two, of which the first is its front.
    Split {
        /// The trip that the train arrives with.
        arriving: TripNo,
        /// The trip that its front leaves with.
        first: TripNo,
        /// The trip that the rest of it leaves with.
        second: TripNo,
    },
}

/// The trips that a link names on one side, the train in front first: two that arrive for a join or depart by a split,
/// and else one.
#[derive(Clone, Copy)]
pub struct LinkTrips {
    /// The first of them.
    pub first: TripNo,
    /// The second, where there are two.
    pub second: Option<TripNo>,
}

/// A train unit.
#[derive(Clone, Copy)]
pub struct Unit {
    /// Its type.
    pub unit_type: TypeNo,
    /// The station where it stands at the start of the day.
    pub home: StationNo,
}

/// The weights of the three parts of the cost.
#[derive(Clone, Copy)]
pub struct Weights {
    /// The cost of a carriage for a kilometre.
    pub carriage: u32,
    /// The cost of a missing seat for a kilometre.
    pub shortage: u32,
    /// The cost of a turn that couples or uncouples.
    pub shunting: u32,
}
