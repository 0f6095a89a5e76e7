//! Plans: a composition for each trip and an edge for each link, with what they cost and where they are broken.

use crate::counts::Counts;
use crate::network::{EdgeRow, LinkRow, Network};
use rail_base::{CompNo, LinkNo, NoMemory, TripNo};
use std::alloc::Global;

/// How many violations a hand-over counts whose second trip has another composition than the part.
pub const MISSED: i64 = 3;

/// Picks with the edges that they take. They follow where `count` found an edge for each link.
#[derive(Drop)]
pub struct Plan {
    /// The composition of each trip.
    pub picks: Vec<CompNo>,
    /// For each link the place of the edge that was last found for it, which may be that of other picks where these
    /// have none.
    pub edges: Vec<usize>,
    /// The counts of the yards.
    pub counts: Counts,
    /// What the trips and the edges cost.
    pub cost: i64,
    /// How many hand-overs have a second trip with another composition than the part.
    pub missed: i64,
    /// How far picks that follow are from a solution, once they were counted: 0 where they are one.
    pub violations: i64,
}

impl Plan {
    /// A plan with the first composition on each trip, which need not follow and isn't counted yet: until then it costs
    /// nothing and has no violations. The error is want of memory.
    pub fn new(alloc: Global, network: &Network) -> Result<Plan, NoMemory> {
        Ok(Plan {
            picks: vec![in alloc; CompNo(0); network.trips.len()]?,
            edges: vec![in alloc; 0; network.links.len()]?,
            counts: Counts::new(alloc, network)?,
            cost: 0,
            missed: 0,
            violations: 0,
        })
    }

    /// Takes over another plan.
    pub fn copy_from(&mut self, other: &Plan) {
        if self.picks.len() == other.picks.len() {
            self.picks.copy_from_slice(&other.picks);
        }
        if self.edges.len() == other.edges.len() {
            self.edges.copy_from_slice(&other.edges);
        }
        self.counts.copy_from(&other.counts);
        self.cost = other.cost;
        self.missed = other.missed;
        self.violations = other.violations;
    }

    /// Whether it has fewer violations than another plan, or as many and costs less.
    pub fn is_less(&self, other: &Plan) -> bool {
        self.violations < other.violations
            || (self.violations == other.violations && self.cost < other.cost)
    }

    /// The composition of a trip.
    pub fn pick(&self, trip: TripNo) -> CompNo {
        pick_in(&self.picks, trip)
    }

    /// Gives a trip a composition. Edges, counts and cost stay until `count`.
    pub fn set(&mut self, trip: TripNo, comp: CompNo) {
        if trip.place() < self.picks.len() {
            self.picks[trip.place()] = comp;
        }
    }

    /// Finds the edges of picks that follow, and counts and measures them. A link between whose picks there is no edge
    /// keeps the one that it had.
    pub fn count(&mut self, network: &Network) {
        self.counts.reset(network);
        self.cost = 0;
        self.missed = 0;
        let mut trip: u32 = 0;
        for _ in 0..network.trips.len() {
            self.add_trip(network, TripNo(trip), 1);
            trip = trip.saturating_add(1);
        }
        let mut link: u32 = 0;
        for _ in 0..network.links.len() {
            self.find_edge(network, LinkNo(link));
            self.add_link(network, LinkNo(link), 1);
            link = link.saturating_add(1);
        }
        self.measure(network);
    }

    /// Finds the edge of a link between its picks.
    fn find_edge(&mut self, network: &Network, number: LinkNo) {
        let Some(link) = network.link(number) else {
            return;
        };
        let Some(edge) = network.find_edge(
            number,
            self.pick(link.arriving),
            self.pick(link.departing),
        ) else {
            return;
        };
        if number.place() < self.edges.len() {
            self.edges[number.place()] = edge;
        }
    }

    /// Counts the violations of the yards and the hand-overs.
    pub fn measure(&mut self, network: &Network) {
        self.violations = self
            .counts
            .violations(network)
            .saturating_add(self.missed.saturating_mul(MISSED));
    }

    /// Adds what a trip costs, takes without an incoming link and gives without an outgoing one, times a sign.
    pub fn add_trip(&mut self, network: &Network, trip: TripNo, sign: i32) {
        let Some(row) = network.trip(trip) else {
            return;
        };
        let comp = self.pick(trip);
        let cost = network.cost(trip, comp).saturating_mul(i64::from(sign));
        self.cost = self.cost.saturating_add(cost);
        let units = network.units(comp);
        if row.incoming.is_none() {
            self.counts.change(
                network,
                row.from,
                units,
                row.take_place,
                0i32.saturating_sub(sign),
            );
        }
        if row.outgoing.is_none() {
            self.counts
                .change(network, row.to, units, row.give_place, sign);
        }
    }

    /// Adds what the edge of a link costs, gives and takes, and whether its part is missed, times a sign.
    pub fn add_link(&mut self, network: &Network, number: LinkNo, sign: i32) {
        let Some(link) = network.link(number) else {
            return;
        };
        let place = self
            .edges
            .get(number.place())
            .copied()
            .unwrap_or(usize::MAX);
        let Some(edge) = network.edge(place) else {
            return;
        };
        self.cost = self
            .cost
            .saturating_add(edge.cost.saturating_mul(i64::from(sign)));
        if self.is_missed(&link, &edge) {
            self.missed = self.missed.saturating_add(i64::from(sign));
        }
        self.add_given(network, link.arriving, edge.given, sign);
        self.add_taken(network, link.departing, edge.taken, sign);
    }

    /// Whether the second trip of a link has another composition than the part of an edge.
    fn is_missed(&self, link: &LinkRow, edge: &EdgeRow) -> bool {
        match second_of(link) {
            Some(second) => edge.part != Some(self.pick(second)),
            None => false,
        }
    }

    /// Adds a list that a trip gives where it arrives, times a sign.
    fn add_given(&mut self, network: &Network, trip: TripNo, list: Option<CompNo>, sign: i32) {
        let Some(row) = network.trip(trip) else {
            return;
        };
        self.counts.change(
            network,
            row.to,
            network.units_in(list),
            row.give_place,
            sign,
        );
    }

    /// Adds a list that a trip takes where it leaves, times a sign.
    fn add_taken(&mut self, network: &Network, trip: TripNo, list: Option<CompNo>, sign: i32) {
        let Some(row) = network.trip(trip) else {
            return;
        };
        let units = network.units_in(list);
        self.counts.change(
            network,
            row.from,
            units,
            row.take_place,
            0i32.saturating_sub(sign),
        );
    }
}

/// The composition of a trip in picks.
pub fn pick_in(picks: &[CompNo], trip: TripNo) -> CompNo {
    match picks.get(trip.place()) {
        Some(comp) => *comp,
        None => CompNo(0),
    }
}

/// The second trip of a join or a split.
pub fn second_of(link: &LinkRow) -> Option<TripNo> {
    if link.second_arriving.is_some() {
        link.second_arriving
    } else {
        link.second_departing
    }
}
