//! The rest of a disturbed day: what is searched for a plan that goes on from its past.

ghost use Rattle.std.specs.Prelude.{◌≡◌, ◌<◌, length, IfOk, IfErr, IsTrue};
ghost use Rattle.timetable.specs.Running.{IsPlan, Runs};
ghost use Rattle.branch_tree.specs.Cuts.{side_of};
ghost use Rattle.branch_tree.specs.Regions.{has};
ghost use Rattle.branch_tree.specs.declared.cuts.Cut.TheVariants.{Only};
ghost use Rattle.branch_tree.specs.declared.cuts.Side.TheVariants.{Left};
ghost use Rattle.price_bound.specs.ChangedDays.{AreChanges};
ghost use Rattle.replan.specs.Disturbances.{changes_in, is_changed, later_day, trips_later};
ghost use Rattle.replan.specs.Laws.{IsUnderWay};
ghost use Rattle.replan.specs.PlannedComps.{ArePlanned};
ghost use Rattle.replan.specs.Promises.{IsStopped};
ghost use Rattle.replan.specs.RestsOfDays.{changes_of, past_root, plan_later, rule_of};

use crate::disturbances::Disturbance;
use crate::naming::PastNaming;
use crate::past::is_frozen;
use crate::refusal::ReplanRefusal;
use answer_check::picks_of_plan;
use branch_tree::{Cut, Region, Side};
use compositions::Catalogue;
use day_simulator::{SimulateRefusal, simulate};
use price_bound::Change;
use rail_base::{CompNo, NoMemory, TripNo};
use rail_csv::UnitList;
use std::alloc::Global;
use std::marker::Model;
use timetable::{Instance, NamedPlan, Picks};

/// What is searched for a plan of the rest of a disturbed day, whose plan runs. A contract sees the disturbed day.
#[derive(Drop)]
pub struct RestOfDay<'a> {
    pub(crate) disturbance: &'a Disturbance<'a>,
    /// The compositions that each trip of the later day may have.
    pub(crate) root: Region,
    /// What it costs to give it another one than was planned.
    changes: Vec<Change>,
    /// The plan, by the trips of the later day.
    earlier: NamedPlan,
}

impl<'a> Model for RestOfDay<'a> {
    ghost use Rattle.replan.specs.Disturbances.{Disturbed};
    ghost use Rattle.replan.specs.PlannedComps.{IsRestOf};

    ghost Value = { Disturbed };

    ghost view = { λ a. a.disturbance.now };

    ghost invariant = { λ a. IsRestOf a.disturbance.now a.root a.changes.items a.earlier };
}

impl<'a> RestOfDay<'a> {
    /// The later day.
    pub fn instance(&self) -> &Instance
        ensures { result.now ≡ later_day self.now }
    {
        self.disturbance.later_day()
    }

    /// The changes under which a plan of the later day costs its price: one for each trip, with the composition that
    /// was planned for it as its base.
    pub fn changes(&self) -> &[Change]
        ensures changes { result.now ≡ changes_of self.now }
        ensures fit { AreChanges (later_day self.now) result.now }
    {
        self.changes.as_slice()
    }

    /// The rule by which units are named from the minute on.
    pub(crate) fn naming(&self) -> PastNaming<'_>
        ensures { result ≡ rule_of self.now }
    {
        PastNaming {
            instance: self.instance(),
            minute: self.disturbance.minute(),
            earlier: &self.earlier,
        }
    }

    /// To how many trips a plan of the later day gives other types than were planned.
    pub(crate) fn changes_in(&self, plan: &NamedPlan) -> u32
        requires { IsPlan (later_day self.now) plan.now }
        ensures { result ≡ changes_in self.now plan.now }
    {
        let mut changes = 0;
        for trip in 0..self.instance().trips() {
            if self.is_changed(plan, TripNo(trip)) {
                changes += 1;
            }
        }
        changes
    }

    /// Whether a plan of the later day gives a trip other types than were planned.
    fn is_changed(&self, plan: &NamedPlan, trip: TripNo) -> bool
        requires plan { IsPlan (later_day self.now) plan.now }
        requires trip { trip < trips_later self.now }
        ensures { result ≡ is_changed self.now plan.now trip }
    {
        let types = plan.types(self.instance(), trip);
        types.as_slice() != self.disturbance.planned_types(trip).as_slice()
    }
}

/// The rest of a disturbed day. Its plan is refused as `Stops` exactly where it does not run, with the first fault of
/// its day, as `day_simulator::simulate` tells it; the other refusal is want of memory.
pub fn rest_of<'a>(
    alloc: Global,
    disturbance: &'a Disturbance<'a>,
) -> Result<RestOfDay<'a>, ReplanRefusal>
    ensures rest { IfOk result (λ rest. rest ≡ disturbance.now) }
    ensures runs { IfOk result (λ rest. Runs disturbance.now.day disturbance.now.plan) }
    ensures refused { IfErr result (IsStopped disturbance.now) }
{
    run(alloc, disturbance)?;
    // What is known of accepted days.
    disturbance.instance.is_sound();
    disturbance.later.instance.is_sound();
    let planned = planned_comps(alloc, disturbance)?;
    Ok(RestOfDay {
        disturbance,
        root: past_root(alloc, disturbance, &planned)?,
        changes: changes_of(alloc, disturbance, &planned)?,
        earlier: plan_later(alloc, disturbance)?,
    })
}

/// Runs the plan of a disturbed day as it was.
fn run(alloc: Global, disturbance: &Disturbance<'_>) -> Result<(), ReplanRefusal>
    ensures runs { IfOk result (λ _. Runs disturbance.now.day disturbance.now.plan) }
    ensures refused { IfErr result (IsStopped disturbance.now) }
{
    match simulate(alloc, disturbance.instance, disturbance.plan) {
        Ok(_) => Ok(()),
        Err(SimulateRefusal::Stops(fault)) => Err(ReplanRefusal::Stops(fault)),
        Err(SimulateRefusal::NoMemory) => Err(ReplanRefusal::NoMemory),
    }
}

/// The compositions that were planned for the trips of the later day.
fn planned_comps(alloc: Global, disturbance: &Disturbance<'_>) -> Result<Picks, NoMemory>
    requires { IsUnderWay disturbance.now }
    ensures { IfOk result (ArePlanned disturbance.now) }
{
    let picks = picks_of_plan(alloc, disturbance.instance, disturbance.plan)?;
    let trips = disturbance.later.instance.trips();
    let mut planned = Picks::new(alloc, trips)?;
    for trip in 0..trips {
        let trip = TripNo(trip);
        planned.set(trip, picks.get(disturbance.old(trip)));
    }
    Ok(planned)
}

/// The compositions that each trip of the later day may have: those that are admissible for it, and the planned one
/// alone where it is frozen.
fn past_root(
    alloc: Global,
    disturbance: &Disturbance<'_>,
    planned: &Picks,
) -> Result<Region, NoMemory>
    requires under_way { IsUnderWay disturbance.now }
    requires planned { ArePlanned disturbance.now planned.now }
    ensures { IfOk result (λ root. root ≡ past_root disturbance.now) }
{
    let later = &disturbance.later.instance;
    let mut root = Region::root(alloc, later)?;
    for trip in 0..later.trips() {
        let trip = TripNo(trip);
        if is_frozen(later, disturbance.minute, trip) {
            keep_only(&mut root, later.catalogue(), trip, planned.get(trip));
        }
    }
    Ok(root)
}

/// Keeps one of the compositions that a trip has, and no other.
fn keep_only(root: &mut Region, catalogue: &Catalogue, trip: TripNo, comp: CompNo)
    requires trip { trip < length root.old }
    requires comp { comp < length catalogue.now }
    requires there { IsTrue (has root.old trip comp) }
    ensures { root.new ≡ side_of catalogue.now (Only trip comp) Left root.old }
{
    let only = Cut::Only { trip, comp };
    // Where the cut is not proper, the trip has no other.
    if root.is_proper(catalogue, &only) {
        let _before = root.cut(catalogue, &only, Side::Left);
    }
}

/// A change for each trip of the later day, with its planned composition as the base.
fn changes_of(
    alloc: Global,
    disturbance: &Disturbance<'_>,
    planned: &Picks,
) -> Result<Vec<Change>, NoMemory>
    requires { ArePlanned disturbance.now planned.now }
    ensures { IfOk result (λ changes. changes.items ≡ changes_of disturbance.now) }
{
    let mut changes = Vec::new(alloc);
    for trip in 0..planned.len() {
        changes.push(Change {
            trip: TripNo(trip),
            base: planned.get(TripNo(trip)),
            cost: disturbance.change,
        })?;
    }
    Ok(changes)
}

/// The plan of a disturbed day, by the trips of the later day.
fn plan_later(alloc: Global, disturbance: &Disturbance<'_>) -> Result<NamedPlan, NoMemory>
    ensures { IfOk result (λ plan. plan ≡ plan_later disturbance.now) }
{
    let mut lists = Vec::new(alloc);
    for trip in 0..disturbance.later.instance.trips() {
        let units = disturbance.plan.units(disturbance.old(TripNo(trip)));
        lists.push(UnitList::of(units.to_vec(alloc)?))?;
    }
    Ok(NamedPlan::of(lists))
}
