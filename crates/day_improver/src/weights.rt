//! Weights by which clusters are drawn.

use moves::{Network, Plan};
use price_guide::PriceGuide;
use rail_base::{LinkNo, NoMemory, TripNo};
use std::alloc::Global;
use timetable::Instance;

/// A weight for each cluster, at least 1 each.
#[derive(Drop)]
pub(crate) struct Weights {
    by_cluster: Vec<u64>,
}

impl Weights {
    /// Weights of so many clusters. The error is want of memory.
    pub(crate) fn new(alloc: Global, clusters: usize) -> Result<Weights, NoMemory> {
        Ok(Weights {
            by_cluster: vec![in alloc; 1; clusters]?,
        })
    }

    /// The sum of all weights.
    pub(crate) fn sum(&self) -> u64 {
        let mut sum: u64 = 0;
        for cluster in 0..self.by_cluster.len() {
            sum = sum.saturating_add(self.by_cluster[cluster]);
        }
        sum
    }

    /// The cluster where a number below the sum falls.
    pub(crate) fn cluster_at(&self, number: u64) -> usize {
        let mut left = number;
        for cluster in 0..self.by_cluster.len() {
            let weight = self.by_cluster[cluster];
            if left < weight {
                return cluster;
            }
            left -= weight;
        }
        0
    }

    /// Weighs clusters by the broken stations that they pass.
    pub(crate) fn by_broken_stations(&mut self, network: &Network, plan: &Plan) {
        let broken = plan.counts.broken_stations(network);
        for cluster in 0..self.by_cluster.len() {
            let passed = network.stations.get(cluster).copied().unwrap_or(0);
            let count = u64::from((passed & broken).count_ones());
            self.by_cluster[cluster] = count
                .saturating_mul(count)
                .saturating_mul(8)
                .saturating_add(1);
        }
    }

    /// Weighs clusters by how far their chains are over the least priced value.
    pub(crate) fn by_regret(
        &mut self,
        network: &Network,
        guide: &PriceGuide,
        plan: &Plan,
        chains: &Chains,
    ) {
        for cluster in 0..self.by_cluster.len() {
            self.by_cluster[cluster] = 0;
        }
        for chain in 0..chains.len() {
            let regret = chains.regret(network, guide, plan, chain);
            let cluster = chains.cluster(network, chain);
            if cluster < self.by_cluster.len() {
                self.by_cluster[cluster] = self.by_cluster[cluster].saturating_add(regret);
            }
        }
        let clusters = (self.by_cluster.len() as u64).saturating_mul(4).max(1);
        let base = self
            .sum()
            .checked_div(clusters)
            .unwrap_or(0)
            .saturating_add(1);
        for cluster in 0..self.by_cluster.len() {
            self.by_cluster[cluster] = self.by_cluster[cluster].saturating_add(base);
        }
    }
}

/// The trips of all chains, in order.
#[derive(Drop)]
pub(crate) struct Chains {
    /// The trips, chain by chain.
    pub trips: Vec<TripNo>,
    /// The place of the first trip of each chain.
    pub begins: Vec<usize>,
}

impl Chains {
    /// The chains of a day. The error is want of memory.
    pub(crate) fn new(alloc: Global, instance: &Instance) -> Result<Chains, NoMemory> {
        let mut trips = Vec::new(alloc);
        let mut begins = Vec::new(alloc);
        for chain in 0..instance.chains() {
            begins.push(trips.len())?;
            for trip in instance.chain(chain) {
                trips.push(*trip)?;
            }
        }
        Ok(Chains { trips, begins })
    }

    /// How many chains there are.
    fn len(&self) -> usize {
        self.begins.len()
    }

    /// The cluster of a chain.
    fn cluster(&self, network: &Network, chain: usize) -> usize {
        let Some(begin) = self.begins.get(chain).copied() else {
            return usize::MAX;
        };
        let Some(first) = self.trips.get(begin).copied() else {
            return usize::MAX;
        };
        match network.trip(first) {
            Some(row) => row.cluster,
            None => usize::MAX,
        }
    }

    /// How far the priced value of a chain is over the least one.
    fn regret(&self, network: &Network, guide: &PriceGuide, plan: &Plan, chain: usize) -> u64 {
        let begin = self.begins.get(chain).copied().unwrap_or(self.trips.len());
        let next = self.begins.get(chain.saturating_add(1)).copied();
        let end = next.unwrap_or(usize::MAX).min(self.trips.len());
        let mut sum: i64 = 0;
        for place in begin..end {
            let Some(trip) = self.trips.get(place).copied() else {
                break;
            };
            if place == begin {
                sum = sum.saturating_sub(guide.least(trip).unwrap_or(0));
            }
            sum = sum.saturating_add(guide.own(trip, plan.pick(trip)).unwrap_or(0));
            sum = sum.saturating_add(price_on(network, guide, plan, trip));
        }
        sum.max(0).unsigned_abs()
    }
}

/// The price of the edge by which a trip's chain goes on, 0 where it ends.
fn price_on(network: &Network, guide: &PriceGuide, plan: &Plan, trip: TripNo) -> i64 {
    let Some(row) = network.trip(trip) else {
        return 0;
    };
    let Some(number) = row.outgoing else {
        return 0;
    };
    let Some(link) = network.link(number) else {
        return 0;
    };
    if link.arriving != trip {
        return 0;
    }
    edge_price(guide, plan, number)
}

/// The price of the edge that a plan has for a link, 0 where the guide has none.
fn edge_price(guide: &PriceGuide, plan: &Plan, number: LinkNo) -> i64 {
    match plan.edges.get(number.place()) {
        Some(edge) => guide.edge(*edge).unwrap_or(0),
        None => 0,
    }
}
