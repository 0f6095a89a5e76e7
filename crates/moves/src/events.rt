//! Events: the starts of trips without incoming links, and the links, in the order of time.

use rail_base::{LinkNo, StationNo, TripNo};

/// What is decided at an event.
#[derive(Clone, Copy, PartialEq, Eq)]
pub enum EventKind {
    /// The composition of a trip that takes all its units from the yard.
    Start(TripNo),
    /// The edge of a link.
    Link(LinkNo),
}

/// The arrival of a trip from which no link leads on.
#[derive(Clone, Copy)]
pub struct Arrival {
    /// The station where it arrives.
    pub station: StationNo,
    /// The place of the first departure minute at which its units are ready.
    pub place: usize,
}

/// An event.
#[derive(Clone, Copy)]
pub struct Event {
    /// What is decided.
    pub kind: EventKind,
    /// The cluster of its trips.
    pub cluster: usize,
    /// The station where units are given and taken.
    pub station: StationNo,
    /// The place from which on what is given counts there.
    pub give_place: usize,
    /// The place from which on what is taken counts there.
    pub take_place: usize,
    /// Whether units may be given there.
    pub gives: bool,
    /// Whether units may be given or taken there.
    pub touches: bool,
    /// The arrival of the first departing trip, where no link leads on from it.
    pub first: Option<Arrival>,
    /// The arrival of the second departing trip of a split, where no link leads on from it.
    pub second: Option<Arrival>,
}
