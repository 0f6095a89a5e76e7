//! A day as moves see it: flat tables of its trips, links, edges, compositions and yards.

use crate::events::Event;
use rail_base::limits::MAX_TYPES;
use rail_base::{CompNo, LinkNo, StationNo, TripNo};

/// How many units of each type a composition has.
#[derive(Clone, Copy)]
pub struct Units {
    /// By type; 0 where the day has no such type.
    pub by_type: [u8; MAX_TYPES],
}

/// A trip.
#[derive(Clone, Copy)]
pub struct TripRow {
    /// The station that it leaves.
    pub from: StationNo,
    /// The station where it arrives.
    pub to: StationNo,
    /// The place of its departure among the departure minutes of the station that it leaves.
    pub take_place: usize,
    /// The place of the first departure minute of the station where it arrives at which what it gives is ready; their
    /// number where there is none.
    pub give_place: usize,
    /// The link that leads into it.
    pub incoming: Option<LinkNo>,
    /// The link that leads on from it.
    pub outgoing: Option<LinkNo>,
    /// The cluster of its chain.
    pub cluster: usize,
}

/// A link.
#[derive(Clone, Copy)]
pub struct LinkRow {
    /// Its first arriving trip.
    pub arriving: TripNo,
    /// The second arriving trip of a join.
    pub second_arriving: Option<TripNo>,
    /// Its first departing trip.
    pub departing: TripNo,
    /// The second departing trip of a split.
    pub second_departing: Option<TripNo>,
    /// Whether some edge of it gives units to the yard.
    pub uncouples: bool,
}

/// An edge of a link, from a composition of its first arriving trip.
#[derive(Clone, Copy)]
pub struct EdgeRow {
    /// The composition of the first departing trip.
    pub to: CompNo,
    /// The list that is given to the yard.
    pub given: Option<CompNo>,
    /// The list that is taken from the yard.
    pub taken: Option<CompNo>,
    /// The composition of the second trip of a join or a split.
    pub part: Option<CompNo>,
    /// What it costs.
    pub cost: i64,
}

/// A station and type.
#[derive(Clone, Copy)]
pub struct YardRow {
    /// The place of its first count among all counts.
    pub first: usize,
    /// How many units stand there at the start of the day.
    pub start: i32,
    /// How many are wanted there at its end.
    pub wanted: i32,
}

/// A day as moves see it. Each list may be asked for at any place.
#[derive(Drop)]
pub struct Network {
    /// How many types there are.
    pub types: usize,
    /// How many compositions the catalogue has.
    pub comps: u32,
    /// How many clusters there are.
    pub clusters: usize,
    /// The trips.
    pub trips: Vec<TripRow>,
    /// The links.
    pub links: Vec<LinkRow>,
    /// The edges of all links, by link, then by the composition that they go from, then by the one that they go to.
    pub edges: Vec<EdgeRow>,
    /// For each link, and each composition and one more, the place of the first edge from there on.
    pub edge_begins: Vec<usize>,
    /// The units of each composition.
    pub units: Vec<Units>,
    /// For each station how many departure minutes it has.
    pub places: Vec<usize>,
    /// The yards, by station and then by type.
    pub yards: Vec<YardRow>,
    /// What each trip costs with each composition.
    pub costs: Vec<i64>,
    /// All starts and links, in the order of time.
    pub events: Vec<Event>,
    /// For each cluster the stations of its trips, as bits.
    pub stations: Vec<u64>,
}

/// Edges of a link from one composition: the place of the first, and of the one after the last.
#[derive(Clone, Copy)]
pub struct EdgeRange {
    /// The place of the first.
    pub begin: usize,
    /// The place after the last.
    pub end: usize,
}

impl Network {
    /// The trip of a number.
    pub fn trip(&self, trip: TripNo) -> Option<TripRow> {
        self.trips.get(trip.place()).copied()
    }

    /// The link of a number.
    pub fn link(&self, link: LinkNo) -> Option<LinkRow> {
        self.links.get(link.place()).copied()
    }

    /// The edge at a place.
    pub fn edge(&self, place: usize) -> Option<EdgeRow> {
        self.edges.get(place).copied()
    }

    /// The edges of a link from a composition.
    pub fn edges_from(&self, link: LinkNo, from: CompNo) -> EdgeRange {
        let place = link
            .place()
            .saturating_mul(self.comps as usize + 1)
            .saturating_add(from.place());
        let begin = self.edge_begins.get(place).copied().unwrap_or(0);
        let end = self
            .edge_begins
            .get(place.saturating_add(1))
            .copied()
            .unwrap_or(0);
        EdgeRange {
            begin,
            end: end.min(self.edges.len()),
        }
    }

    /// The place of the edge of a link from one composition to another.
    pub fn find_edge(&self, link: LinkNo, from: CompNo, to: CompNo) -> Option<usize> {
        let range = self.edges_from(link, from);
        for place in range.begin..range.end {
            if place < self.edges.len() && self.edges[place].to == to {
                return Some(place);
            }
        }
        None
    }

    /// The units of a composition.
    pub fn units(&self, comp: CompNo) -> Units {
        match self.units.get(comp.place()) {
            Some(units) => *units,
            None => NO_UNITS,
        }
    }

    /// The units of a list that may be none.
    pub fn units_in(&self, list: Option<CompNo>) -> Units {
        match list {
            Some(comp) => self.units(comp),
            None => NO_UNITS,
        }
    }

    /// What a trip costs with a composition.
    pub fn cost(&self, trip: TripNo, comp: CompNo) -> i64 {
        let place = trip
            .place()
            .saturating_mul(self.comps as usize)
            .saturating_add(comp.place());
        self.costs.get(place).copied().unwrap_or(0)
    }

    /// How many departure minutes a station has.
    pub fn places(&self, station: StationNo) -> usize {
        self.places.get(station.place()).copied().unwrap_or(0)
    }

    /// The place of a station and a type among the yards.
    pub fn yard_place(&self, station: StationNo, unit_type: usize) -> usize {
        station
            .place()
            .saturating_mul(self.types)
            .saturating_add(unit_type)
    }

    /// The yard of a station and a type.
    pub fn yard(&self, station: StationNo, unit_type: usize) -> YardRow {
        match self.yards.get(self.yard_place(station, unit_type)) {
            Some(yard) => *yard,
            None => NO_YARD,
        }
    }
}

/// No units.
pub const NO_UNITS: Units = Units {
    by_type: [0; MAX_TYPES],
};

/// What stands for a yard that is not there.
const NO_YARD: YardRow = YardRow {
    first: 0,
    start: 0,
    wanted: 0,
};
