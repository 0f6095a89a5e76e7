//! The improver of a day: at the root an ascent and moves in turn, at other nodes a short ascent and few moves.

ghost use Rattle.std.specs.Prelude.{◌≡◌};
ghost use Rattle.transitions.specs.Edges.{AreGraphs};
ghost use Rattle.price_bound.specs.ChangedDays.{AreChanges};

use crate::cuts::PickCounts;
use crate::layouts::layout_of;
use crate::plan_search::PlanSearch;
use crate::rays::put_ray;
use crate::shares::{NODE_STEPS, PASS, PATIENCE_BELOW, SETTLING, patience_of, shares_of};
use crate::watching::{NoWatcher, Sight, Watcher};
use ascent::{Ascent, Step};
use branch_tree::{Multipliers, Region, Relaxation, is_positive};
use improvers::{Improvement, Improver, Seen};
use price_bound::{Change, DayBounds};
use rail_base::{Money, NoMemory};
use std::alloc::Global;
use timetable::{Instance, Picks};
use transitions::Graphs;

/// Finds multipliers and picks of a day, and tells a watcher how far it has come.
#[derive(Drop)]
pub struct DayImprover<'a, W> {
    alloc: Global,
    instance: &'a Instance,
    work: Work<'a>,
    evaluations: u32,
    seeks_ray: bool,
    watcher: W,
}

/// What the improver of a day works with.
#[derive(Drop)]
struct Work<'a> {
    bounds: DayBounds<'a>,
    ascent: Ascent,
    plans: PlanSearch,
    counts: PickCounts,
    sight: Sight,
    /// How many steps the ascent took at a node.
    steps: u32,
    /// Whether it can take no more.
    has_ended: bool,
}

impl<'a> Work<'a> {
    /// What works on a day under changes, with so many evaluations at the root. The error is want of memory.
    fn new(
        alloc: Global,
        instance: &'a Instance,
        graphs: &'a Graphs,
        changes: &'a [Change],
        evaluations: u32,
    ) -> Result<Work<'a>, NoMemory>
        requires graphs { AreGraphs instance.now graphs.now }
        requires changes { AreChanges instance.now changes.now }
    {
        let ascent = ascent_of(alloc, instance, graphs, evaluations)?;
        let types = instance.types().len() as usize;
        let counts = PickCounts::new(alloc, instance.trips() as usize, types)?;
        let mut bounds = DayBounds::with_changes(alloc, instance, graphs, changes)?;
        let plans = PlanSearch::new(alloc, instance, graphs, &mut bounds)?;
        Ok(Work {
            bounds,
            ascent,
            plans,
            counts,
            sight: Sight::new(instance.handovers() != 0),
            steps: 0,
            has_ended: false,
        })
    }

    /// Looks for a ray of a region, by so many evaluations of the bound without cost at most, and tells whether the
    /// best multipliers are one.
    fn finds_ray(&mut self, region: &Region, evaluations: u32) -> bool {
        self.ascent.restart_for_ray();
        for _ in 0..evaluations {
            let step = self.ascent.step_to_ray(&mut self.bounds, region);
            if is_positive(self.ascent.bound()) {
                return true;
            }
            if step != Step::More {
                break;
            }
        }
        false
    }

    /// Takes steps of the ascent in a region, as long as it has not ended.
    fn take_steps(&mut self, region: &Region, steps: u32) {
        for _ in 0..steps {
            if self.has_ended {
                break;
            }
            self.take_step(region);
        }
    }

    /// Takes a step of the ascent in a region.
    fn take_step(&mut self, region: &Region) {
        let incumbent = self.plans.incumbent();
        let step = self.ascent.step(&mut self.bounds, region, incumbent);
        self.has_ended = step != Step::More;
        self.steps = self.steps.saturating_add(1);
        self.sight.count();
        if step != Step::Empty && self.steps > SETTLING {
            self.counts.add(self.plans.network(), self.ascent.picks());
        }
        if step == Step::Met {
            self.plans.go_on_from(self.ascent.picks());
        }
    }

    /// Whether the best plan costs no more than the bound.
    fn is_proved(&self) -> bool {
        match (self.plans.incumbent(), self.ascent.bound()) {
            (Some(cost), Some(bound)) => cost.0 <= bound.0,
            _ => false,
        }
    }

    /// Takes the prices of the last evaluation of a region, or of the best one where the ascent has ended.
    fn take_prices(&mut self, region: &Region) {
        if self.has_ended {
            let best = self.ascent.best_multipliers();
            self.plans.price(&mut self.bounds, region, best);
        } else {
            let last = self.ascent.multipliers();
            self.plans.price(&mut self.bounds, region, last);
        }
    }

    /// Takes a pass of so many moves.
    fn pass(&mut self, region: &Region, moves: u32) {
        self.take_prices(region);
        if !self.plans.has_begun() {
            self.plans.begin(self.ascent.best_picks());
        }
        for _ in 0..moves {
            if self.is_proved() {
                break;
            }
            self.plans.take_move();
        }
    }

    /// Takes note of the bound of all plans that the ascent came to.
    fn note_root(&mut self) {
        if let Some(bound) = self.ascent.bound() {
            self.sight.raise_bound(bound);
        }
    }

    /// Takes note of what the best plan costs.
    fn note_plan(&mut self) {
        if let Some(cost) = self.plans.incumbent() {
            self.sight.lower_plan(cost);
        }
    }

    /// Takes a short ascent from the multipliers of a node, and two moves after each ten steps.
    fn improve_node(&mut self, seen: &Seen<'_>) {
        self.begin_node(seen.multipliers);
        if let Some(best) = &seen.best {
            self.go_on_from(best.picks);
        }
        for _ in 0..NODE_STEPS / PASS {
            self.take_steps(seen.region, PASS);
            if self.ascent.bound().is_some() && self.plans.incumbent().is_some() {
                self.small_pass(seen.region);
            }
        }
    }

    /// Begins a short ascent from multipliers.
    fn begin_node(&mut self, multipliers: &Multipliers) {
        self.ascent.restart(multipliers, PATIENCE_BELOW);
        self.counts.clear();
        self.steps = 0;
        self.has_ended = false;
    }

    /// Takes two moves that free few clusters.
    fn small_pass(&mut self, region: &Region) {
        self.take_prices(region);
        self.plans.take_small_move();
        self.plans.take_small_move();
    }

    /// Goes on from picks, where they are the day's and follow.
    fn go_on_from(&mut self, picks: &Picks) {
        if picks.len() == self.bounds.trips() && self.bounds.follows(picks) {
            self.plans.go_on_from(picks);
        }
    }

    /// The best multipliers. The error is want of memory.
    fn multipliers(&self, alloc: Global) -> Result<Multipliers, NoMemory> {
        self.ascent.best_multipliers().copy(alloc)
    }

    /// Proposes the best multipliers, the best plan where it is new, and a cut. The error is want of memory.
    fn propose(
        &self,
        alloc: Global,
        trips: u32,
        seen: &Seen<'_>,
        to: &mut Improvement,
    ) -> Result<(), NoMemory> {
        if self.ascent.bound().is_some() {
            to.multipliers = Some(self.multipliers(alloc)?);
        }
        if is_new(self.plans.incumbent(), seen) {
            to.picks.push(self.plans.picks(alloc, trips)?)?;
        }
        to.cut = self.counts.cut(self.ascent.picks(), seen.region);
        Ok(())
    }
}

/// The ascent of a day with its edges. The error is want of memory.
fn ascent_of(
    alloc: Global,
    instance: &Instance,
    graphs: &Graphs,
    evaluations: u32,
) -> Result<Ascent, NoMemory>
    requires { AreGraphs instance.now graphs.now }
{
    let layout = layout_of(alloc, instance, graphs)?;
    Ascent::new(alloc, layout, instance.trips(), patience_of(evaluations))
}

impl<'a> DayImprover<'a, NoWatcher> {
    /// An improver of a day with its edges that nothing is changed on, which takes at most so many evaluations of the
    /// bound at the root, and as many without cost where it finds no plan there: with none it proposes nothing at any
    /// node. The graphs are those of the day. The error is want of memory.
    pub fn new(
        alloc: Global,
        instance: &'a Instance,
        graphs: &'a Graphs,
        evaluations: u32,
    ) -> Result<DayImprover<'a, NoWatcher>, NoMemory>
        requires { AreGraphs instance.now graphs.now }
    {
        let none: &'a [Change] = &[];
        DayImprover::with_changes(alloc, instance, graphs, none, evaluations)
    }

    /// The same of a day under changes, which `DayBounds::with_changes` takes.
    pub fn with_changes(
        alloc: Global,
        instance: &'a Instance,
        graphs: &'a Graphs,
        changes: &'a [Change],
        evaluations: u32,
    ) -> Result<DayImprover<'a, NoWatcher>, NoMemory>
        requires graphs { AreGraphs instance.now graphs.now }
        requires changes { AreChanges instance.now changes.now }
    {
        DayImprover::watched(alloc, instance, graphs, changes, evaluations, NoWatcher)
    }
}

impl<'a, W: Watcher> DayImprover<'a, W> {
    /// The same, which tells a watcher how far it has come: at the root after each pass of moves, and at the end of
    /// each node.
    pub fn watched(
        alloc: Global,
        instance: &'a Instance,
        graphs: &'a Graphs,
        changes: &'a [Change],
        evaluations: u32,
        watcher: W,
    ) -> Result<DayImprover<'a, W>, NoMemory>
        requires graphs { AreGraphs instance.now graphs.now }
        requires changes { AreChanges instance.now changes.now }
    {
        let work = Work::new(alloc, instance, graphs, changes, evaluations)?;
        Ok(DayImprover {
            alloc,
            instance,
            work,
            evaluations,
            seeks_ray: false,
            watcher,
        })
    }

    /// Takes so many evaluations of the bound of a region and about so many moves.
    fn improve_root(&mut self, region: &Region, moves: u32) {
        let shares = shares_of(self.evaluations, moves);
        let mut left = self.evaluations;
        let mut block = shares.first;
        for _ in 0..self.evaluations {
            if left == 0 {
                break;
            }
            let steps = block.min(left).max(1);
            self.work.take_steps(region, steps);
            left = left.saturating_sub(steps);
            if self.work.ascent.bound().is_none() {
                break;
            }
            self.work.pass(region, shares.moves);
            self.work.note_root();
            self.tell();
            if self.work.is_proved() {
                break;
            }
            block = shares.block;
        }
    }

    /// Tells the watcher how far the improver has come.
    fn tell(&mut self) {
        self.work.note_plan();
        self.watcher.watch(self.work.sight.progress());
    }

    /// Looks for a ray of a region, by as many evaluations of the bound without cost as are granted at most, and
    /// proposes it. The error is want of memory.
    fn seek_ray(&mut self, region: &Region, to: &mut Improvement) -> Result<(), NoMemory> {
        if self.work.finds_ray(region, self.evaluations) {
            to.multipliers = Some(self.work.multipliers(self.alloc)?);
        }
        Ok(())
    }

    /// Works on a node, and proposes what it found. The error is want of memory.
    fn work_on(&mut self, seen: &Seen<'_>, to: &mut Improvement) -> Result<(), NoMemory> {
        let trips = self.instance.trips();
        if seen.node > 0 {
            self.work.improve_node(seen);
        } else {
            let moves = self.evaluations.saturating_mul(moves_for(trips));
            self.improve_root(seen.region, moves);
        }
        self.work.propose(self.alloc, trips, seen, to)
    }

    /// Looks for a ray where one is sought, and works on a node otherwise. The error is want of memory.
    fn take_turn(&mut self, seen: &Seen<'_>, to: &mut Improvement) -> Result<(), NoMemory> {
        if self.seeks_ray && seen.node == 0 {
            self.seeks_ray = false;
            return self.seek_ray(seen.region, to);
        }
        self.work_on(seen, to)?;
        self.seeks_ray = seen.node == 0 && self.work.plans.incumbent().is_none();
        Ok(())
    }
}

impl<'a, W: Watcher> Improver for DayImprover<'a, W> {
    /// At the root it proposes first what shows that the day cannot balance, where its sums of units say so; and where
    /// it finds no plan there, it looks for a ray when it is asked again.
    fn improve(&mut self, seen: &Seen<'_>, to: &mut Improvement) -> Result<bool, NoMemory> {
        if seen.attempt == 0 {
            self.work.sight.see(seen);
        }
        if self.evaluations > 0 {
            let is_first = seen.node == 0 && seen.attempt == 0;
            if is_first && put_ray(self.alloc, self.instance, to)? {
                return Ok(true);
            }
            self.take_turn(seen, to)?;
        }
        self.tell();
        Ok(self.seeks_ray)
    }
}

/// Whether a plan of this cost is better than the best that was seen.
fn is_new(cost: Option<Money>, seen: &Seen<'_>) -> bool {
    match (cost, &seen.best) {
        (Some(cost), Some(best)) => cost.0 < best.cost.0,
        (Some(_), None) => true,
        (None, _) => false,
    }
}

/// How many moves there are for each evaluation at the root, on a day of so many trips.
fn moves_for(trips: u32) -> u32 {
    if trips > 200 { 8 } else { 2 }
}
