//! The search for plans: moves from plan to plan, under the prices of the last multipliers.

ghost use Rattle.std.specs.Prelude.{◌≡◌};
ghost use Rattle.transitions.specs.Edges.{AreGraphs};

use crate::building::{edge_count, network_of};
use crate::draws::Draws;
use crate::weights::{Chains, Weights};
use branch_tree::{Multipliers, Region, Relaxation, Weight};
use moves::beam::WIDTH;
use moves::{Beam, Freedom, Network, Plan};
use price_bound::DayBounds;
use price_guide::PriceGuide;
use rail_base::{CompNo, Money, NoMemory, TripNo};
use std::alloc::Global;
use std::mem;
use timetable::{Instance, Picks};
use transitions::Graphs;

/// How many moves in turn may gain nothing while a plan has violations, before all is built anew.
const MAX_STALLED: u32 = 40;
/// How many clusters a move frees at most, where it does not free all.
const MAX_FREED: u32 = 8;
/// How many clusters a move frees at most at a node that is not the root.
const MAX_FREED_BELOW: u32 = 5;

/// Plans of a day, and the room in which they are changed.
#[derive(Drop)]
pub(crate) struct PlanSearch {
    day: PricedDay,
    room: MoveRoom,
    plans: Plans,
    pace: Pace,
    has_begun: bool,
}

/// A day as moves see it, under the last prices.
#[derive(Drop)]
struct PricedDay {
    network: Network,
    guide: PriceGuide,
    chains: Chains,
}

impl PricedDay {
    /// A day with its edges, at its costs. The error is want of memory.
    fn new(
        alloc: Global,
        instance: &Instance,
        graphs: &Graphs,
        bounds: &mut DayBounds<'_>,
    ) -> Result<PricedDay, NoMemory>
        requires { AreGraphs instance.now graphs.now }
    {
        let guide = cost_guide(alloc, instance, graphs, bounds)?;
        let network = network_of(alloc, instance, graphs, &guide)?;
        let chains = Chains::new(alloc, instance)?;
        Ok(PricedDay {
            network,
            guide,
            chains,
        })
    }
}

/// How many moves were made.
#[derive(Clone, Copy)]
struct Pace {
    /// All of them.
    made: u32,
    /// Those in turn that gained nothing.
    stalled: u32,
    /// Those that built all anew while a plan had violations.
    rebuilt: u32,
}

/// What the next move does.
#[derive(Clone, Copy)]
struct NextMove {
    /// Whether it builds all anew.
    is_whole: bool,
    /// Whether labels are told apart by lists, too.
    by_lists: bool,
}

impl Pace {
    /// Counts a move from a plan, which has violations or none, and tells what it does.
    fn count(&mut self, has_violations: bool) -> NextMove {
        self.made = self.made.saturating_add(1);
        self.stalled = self.stalled.saturating_add(1);
        let is_whole = has_violations && self.stalled >= MAX_STALLED;
        if !is_whole {
            return NextMove {
                is_whole,
                by_lists: self.made % 4 != 0,
            };
        }
        let by_lists = self.rebuilt % 2 != 0;
        self.stalled = 0;
        self.rebuilt = self.rebuilt.saturating_add(1);
        NextMove { is_whole, by_lists }
    }

    /// How many clusters the next move frees at most, where it does not free all.
    fn most_freed(&self) -> u32 {
        MAX_FREED.min((self.stalled / MAX_STALLED).saturating_add(3))
    }
}

/// The room in which moves are made.
#[derive(Drop)]
struct MoveRoom {
    beam: Beam,
    weights: Weights,
    /// For each cluster whether the move frees it.
    freed: Vec<bool>,
    draws: Draws,
}

impl MoveRoom {
    /// The room for moves of a day. The error is want of memory.
    fn new(alloc: Global, network: &Network) -> Result<MoveRoom, NoMemory> {
        let beam = Beam::new(alloc, network)?;
        let weights = Weights::new(alloc, network.clusters)?;
        let freed = vec![in alloc; false; network.clusters]?;
        Ok(MoveRoom {
            beam,
            weights,
            freed,
            draws: Draws::new(),
        })
    }

    /// Frees all clusters.
    fn free_all(&mut self) {
        for cluster in 0..self.freed.len() {
            self.freed[cluster] = true;
        }
    }

    /// Frees no cluster.
    fn free_none(&mut self) {
        for cluster in 0..self.freed.len() {
            self.freed[cluster] = false;
        }
    }

    /// Frees a cluster.
    fn free(&mut self, cluster: usize) {
        if cluster < self.freed.len() {
            self.freed[cluster] = true;
        }
    }

    /// How many clusters there are, as many as fit 32 bits.
    fn clusters(&self) -> u32 {
        u32::try_from(self.freed.len()).unwrap_or(u32::MAX)
    }

    /// Frees clusters, as many as are drawn up to so many, which may be the same: in the first manner drawn alike, in
    /// the second by weight for the first one and alike for the others, in the third by weight.
    fn free_drawn(&mut self, manner: u32, most: u32) {
        self.free_none();
        let clusters = self.clusters();
        let count = self.draws.below(clusters.min(most)).saturating_add(1);
        for number in 0..count {
            let alike = manner == 0 || (manner == 1 && number > 0);
            let cluster = if alike {
                self.draws.below(clusters) as usize
            } else {
                self.by_weight()
            };
            self.free(cluster);
        }
    }

    /// A cluster drawn by weight.
    fn by_weight(&mut self) -> usize {
        let number = self.draws.below_wide(self.weights.sum());
        self.weights.cluster_at(number)
    }

    /// Weighs the clusters for a manner of drawing them.
    fn weigh(&mut self, manner: u32, day: &PricedDay, plan: &Plan) {
        if manner == 2 && plan.violations != 0 {
            self.weights.by_broken_stations(&day.network, plan);
        } else if manner != 0 {
            self.weights
                .by_regret(&day.network, &day.guide, plan, &day.chains);
        }
    }
}

/// The plans between which moves go.
#[derive(Drop)]
struct Plans {
    /// The one from which the next move goes.
    current: Plan,
    /// The one that the last move came to.
    after: Plan,
    /// The best one.
    best: Plan,
}

impl Plans {
    /// Plans of a day that follow nothing yet. The error is want of memory.
    fn new(alloc: Global, network: &Network) -> Result<Plans, NoMemory> {
        let current = Plan::new(alloc, network)?;
        let after = Plan::new(alloc, network)?;
        let best = Plan::new(alloc, network)?;
        Ok(Plans {
            current,
            after,
            best,
        })
    }

    /// Goes on to the plan that the last move came to.
    fn go_on(&mut self) {
        mem::swap(&mut self.current, &mut self.after);
    }

    /// Whether the last move came to a better plan.
    fn has_gained(&self) -> bool {
        self.after.is_less(&self.current)
    }

    /// Whether the last move came to a worse plan.
    fn has_lost(&self) -> bool {
        self.current.is_less(&self.after)
    }

    /// Keeps the current plan as the best one.
    fn keep(&mut self) {
        self.best.copy_from(&self.current);
    }

    /// Keeps the current plan as the best one, where it is.
    fn keep_best(&mut self) {
        if self.current.is_less(&self.best) {
            self.keep();
        }
    }

    /// Takes over picks that follow.
    fn set_current(&mut self, network: &Network, picks: &Picks) {
        for trip in 0..picks.len() {
            self.current.set(TripNo(trip), picks.get(TripNo(trip)));
        }
        self.current.count(network);
    }

    /// What the best plan costs, where it has no violations.
    fn incumbent(&self) -> Option<Money> {
        if self.best.violations == 0 {
            Some(Money(i128::from(self.best.cost)))
        } else {
            None
        }
    }
}

impl PlanSearch {
    /// The search for plans of a day with its edges. The error is want of memory.
    pub(crate) fn new(
        alloc: Global,
        instance: &Instance,
        graphs: &Graphs,
        bounds: &mut DayBounds<'_>,
    ) -> Result<PlanSearch, NoMemory>
        requires { AreGraphs instance.now graphs.now }
    {
        let day = PricedDay::new(alloc, instance, graphs, bounds)?;
        let room = MoveRoom::new(alloc, &day.network)?;
        let plans = Plans::new(alloc, &day.network)?;
        Ok(PlanSearch {
            day,
            room,
            plans,
            pace: Pace {
                made: 0,
                stalled: 0,
                rebuilt: 0,
            },
            has_begun: false,
        })
    }

    /// The day as moves see it.
    pub(crate) fn network(&self) -> &Network {
        &self.day.network
    }

    /// What the best plan costs, where it has no violations.
    pub(crate) fn incumbent(&self) -> Option<Money> {
        if self.has_begun {
            self.plans.incumbent()
        } else {
            None
        }
    }

    /// The picks of the best plan. The error is want of memory.
    pub(crate) fn picks(&self, alloc: Global, trips: u32) -> Result<Picks, NoMemory> {
        let mut picks = Picks::new(alloc, trips)?;
        for trip in 0..trips {
            put_pick(&mut picks, TripNo(trip), self.plans.best.pick(TripNo(trip)));
        }
        Ok(picks)
    }

    /// Takes the prices of a region under multipliers.
    pub(crate) fn price(
        &mut self,
        bounds: &mut DayBounds<'_>,
        region: &Region,
        multipliers: &Multipliers,
    ) {
        price(bounds, region, multipliers, &mut self.day.guide);
    }

    /// Whether there is a plan to move from.
    pub(crate) fn has_begun(&self) -> bool {
        self.has_begun
    }

    /// Begins with picks that follow, and builds all anew by a beam of width 1.
    pub(crate) fn begin(&mut self, picks: &Picks) {
        self.has_begun = true;
        self.plans.set_current(&self.day.network, picks);
        self.plans.keep();
        self.room.free_all();
        if self.rebuild(1, true) {
            self.plans.go_on();
        }
        self.plans.keep_best();
    }

    /// Goes on from picks that follow.
    pub(crate) fn go_on_from(&mut self, picks: &Picks) {
        self.plans.set_current(&self.day.network, picks);
        if !self.has_begun {
            self.has_begun = true;
            self.plans.keep();
        }
        self.plans.keep_best();
    }

    /// Makes a move, and takes its plan where it is no worse, or all was built anew.
    pub(crate) fn take_move(&mut self) {
        let next = self.pace.count(self.plans.current.violations != 0);
        if next.is_whole {
            self.room.free_all();
        } else {
            self.free_some();
        }
        if !self.rebuild(WIDTH, next.by_lists) {
            return;
        }
        if self.plans.has_gained() {
            self.pace.stalled = 0;
        }
        if next.is_whole || !self.plans.has_lost() {
            self.plans.go_on();
        }
        self.plans.keep_best();
    }

    /// Makes a move that frees few clusters, drawn alike, and takes its plan where it is better.
    pub(crate) fn take_small_move(&mut self) {
        self.room.free_drawn(0, MAX_FREED_BELOW);
        if self.rebuild(WIDTH, true) && self.plans.has_gained() {
            self.plans.go_on();
        }
        self.plans.keep_best();
    }

    /// Builds the freed clusters of the current plan anew.
    fn rebuild(&mut self, width: usize, by_lists: bool) -> bool {
        let freedom = Freedom {
            freed: &self.room.freed,
            width,
            by_lists,
        };
        self.room.beam.rebuild(
            &self.day.network,
            &self.day.guide,
            &self.plans.current,
            freedom,
            &mut self.plans.after,
        )
    }

    /// Draws some clusters, which may be the same, and frees them.
    fn free_some(&mut self) {
        let manner = self.pace.made % 3;
        self.room.weigh(manner, &self.day, &self.plans.current);
        self.room.free_drawn(manner, self.pace.most_freed());
    }
}

/// Gives a trip a composition, where picks have such a trip.
fn put_pick(picks: &mut Picks, trip: TripNo, comp: CompNo) {
    if trip.0 < picks.len() {
        picks.set(trip, comp);
    }
}

/// A guide to the costs of a day with its edges, which are its prices under no multipliers. The error is want of
/// memory.
fn cost_guide(
    alloc: Global,
    instance: &Instance,
    graphs: &Graphs,
    bounds: &mut DayBounds<'_>,
) -> Result<PriceGuide, NoMemory>
    requires { AreGraphs instance.now graphs.now }
{
    let mut guide = guide_of(alloc, instance, graphs)?;
    let region = Region::root(alloc, instance)?;
    let none = Multipliers::new(alloc)?;
    price(bounds, &region, &none, &mut guide);
    Ok(guide)
}

/// A guide with room for the prices of a day with its edges. The error is want of memory.
fn guide_of(alloc: Global, instance: &Instance, graphs: &Graphs) -> Result<PriceGuide, NoMemory>
    requires { AreGraphs instance.now graphs.now }
{
    PriceGuide::new(
        alloc,
        instance.trips() as usize,
        instance.catalogue().len() as usize,
        edge_count(instance, graphs),
    )
}

/// Puts the prices of a region under multipliers into a guide, where the multipliers fit.
fn price(
    bounds: &mut DayBounds<'_>,
    region: &Region,
    multipliers: &Multipliers,
    guide: &mut PriceGuide,
) {
    if multipliers.fits(bounds.indices(), bounds.free_from()) && region.trips() == bounds.trips() {
        bounds.put_prices(region, multipliers, Weight::Cost, guide);
    }
}
