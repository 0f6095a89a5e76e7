//! Labels: what has been set on the way through the events of a move.

use crate::counts::Counts;
use crate::events::{Arrival, Event};
use crate::network::{LinkRow, Network, Units};
use crate::plans::{Plan, pick_in};
use rail_base::limits::MAX_TYPES;
use rail_base::{CompNo, LinkNo, NoMemory, StationNo, TripNo};
use std::alloc::Global;

/// A plan of which the freed trips are set up to an event.
#[derive(Drop)]
pub(crate) struct Label {
    /// The reduced cost of what was set.
    pub score: i64,
    /// The violations that were seen on the way.
    pub violations: i64,
    /// The composition of each trip.
    pub picks: Vec<CompNo>,
    /// The counts of what is set.
    pub counts: Counts,
    /// What that costs.
    pub cost: i64,
    /// How many hand-overs miss their parts.
    pub missed: i64,
    /// A sum over the freed trips that are under way or waiting, and their compositions.
    pub under_way: u64,
    /// A sum over the counts at the end of the day.
    pub ends: u64,
    /// The last link that was set, among the steps of the beam.
    pub step: Option<usize>,
}

impl Label {
    /// Room for a label. The error is want of memory.
    pub(crate) fn new(alloc: Global, network: &Network) -> Result<Label, NoMemory> {
        Ok(Label {
            score: 0,
            violations: 0,
            picks: vec![in alloc; CompNo(0); network.trips.len()]?,
            counts: Counts::new(alloc, network)?,
            cost: 0,
            missed: 0,
            under_way: 0,
            ends: 0,
            step: None,
        })
    }

    /// Begins with what is left of a plan.
    pub(crate) fn begin(&mut self, plan: &Plan) {
        self.score = 0;
        self.violations = 0;
        self.under_way = 0;
        self.ends = 0;
        self.step = None;
        self.cost = plan.cost;
        self.missed = plan.missed;
        if self.picks.len() == plan.picks.len() {
            self.picks.copy_from_slice(&plan.picks);
        }
        self.counts.copy_from(&plan.counts);
    }

    /// Takes over another label.
    pub(crate) fn copy_from(&mut self, other: &Label) {
        self.score = other.score;
        self.violations = other.violations;
        self.under_way = other.under_way;
        self.ends = other.ends;
        self.step = other.step;
        self.cost = other.cost;
        self.missed = other.missed;
        if self.picks.len() == other.picks.len() {
            self.picks.copy_from_slice(&other.picks);
        }
        self.counts.copy_from(&other.counts);
    }

    /// The composition of a trip.
    pub(crate) fn pick(&self, trip: TripNo) -> CompNo {
        pick_in(&self.picks, trip)
    }

    /// Sets the composition of a trip that starts.
    pub(crate) fn start(&mut self, network: &Network, event: &Event, trip: TripNo, comp: CompNo) {
        self.change(
            network,
            event.station,
            network.units(comp),
            event.take_place,
            -1,
        );
        self.depart(network, trip, comp, event.first);
    }

    /// Sets the edge of a link.
    pub(crate) fn follow(
        &mut self,
        network: &Network,
        event: &Event,
        number: LinkNo,
        place: usize,
    ) {
        let Some(link) = network.link(number) else {
            return;
        };
        let Some(edge) = network.edge(place) else {
            return;
        };
        self.arrive(&link, edge.part);
        self.cost = self.cost.saturating_add(edge.cost);
        if edge.given.is_some() {
            self.change(
                network,
                event.station,
                network.units_in(edge.given),
                event.give_place,
                1,
            );
        }
        if edge.taken.is_some() {
            self.change(
                network,
                event.station,
                network.units_in(edge.taken),
                event.take_place,
                -1,
            );
        }
        self.depart(network, link.departing, edge.to, event.first);
        if let Some(second) = link.second_departing
            && let Some(part) = edge.part
        {
            self.depart(network, second, part, event.second);
        }
    }

    /// Ends the arriving trips of a link.
    fn arrive(&mut self, link: &LinkRow, part: Option<CompNo>) {
        let from = self.pick(link.arriving);
        self.under_way = self.under_way.wrapping_sub(mark(link.arriving, from));
        if let Some(second) = link.second_arriving {
            let comp = self.pick(second);
            self.under_way = self.under_way.wrapping_sub(mark(second, comp));
            if part != Some(comp) {
                self.missed = self.missed.saturating_add(1);
            }
        }
    }

    /// Sets the composition of a departing trip, and gives it to the yard where it arrives and no link leads on.
    fn depart(&mut self, network: &Network, trip: TripNo, comp: CompNo, arrival: Option<Arrival>) {
        if trip.place() < self.picks.len() {
            self.picks[trip.place()] = comp;
        }
        self.cost = self.cost.saturating_add(network.cost(trip, comp));
        self.under_way = self.under_way.wrapping_add(mark(trip, comp));
        if let Some(arrival) = arrival {
            self.change(
                network,
                arrival.station,
                network.units(comp),
                arrival.place,
                1,
            );
        }
    }

    /// Changes the counts of a station from a place on.
    fn change(
        &mut self,
        network: &Network,
        station: StationNo,
        units: Units,
        place: usize,
        sign: i32,
    ) {
        self.counts.change(network, station, units, place, sign);
        for unit_type in 0..network.types.min(MAX_TYPES) {
            let moved = u64::from(units.by_type[unit_type]);
            let yard = network.yard_place(station, unit_type) as u64;
            let change = mixed(yard).wrapping_mul(moved);
            self.ends = if sign < 0 {
                self.ends.wrapping_sub(change)
            } else {
                self.ends.wrapping_add(change)
            };
        }
    }
}

/// What stands for a trip with a composition in sums that tell labels apart.
pub(crate) fn mark(trip: TripNo, comp: CompNo) -> u64 {
    mixed(
        u64::from(trip.0)
            .wrapping_mul(0x1_0000_0000)
            .wrapping_add(u64::from(comp.0)),
    )
}

/// What stands for the lists that an edge gives and takes.
pub(crate) fn mark_of_lists(given: Option<CompNo>, taken: Option<CompNo>) -> u64 {
    mixed(
        number_of(given)
            .wrapping_mul(0x1_0000_0000)
            .wrapping_add(number_of(taken))
            .wrapping_add(0x8000_0000_0000_0000),
    )
}

/// The number of a list counted from 1, and 0 for none.
fn number_of(list: Option<CompNo>) -> u64 {
    match list {
        Some(comp) => u64::from(comp.0).wrapping_add(1),
        None => 0,
    }
}

/// A number with its bits spread.
fn mixed(number: u64) -> u64 {
    let sum = number.wrapping_add(0x9e37_79b9_7f4a_7c15);
    let once = (sum ^ (sum >> 30)).wrapping_mul(0xbf58_476d_1ce4_e5b9);
    let twice = (once ^ (once >> 27)).wrapping_mul(0x94d0_49bb_1331_11eb);
    twice ^ (twice >> 31)
}
