//! The plan of an answer: whether its runs are a plan of the day that runs, and which compositions it picks.

ghost use Rattle.std.specs.Prelude.{◌≡◌, ◌<◌, ◌≤◌, IfOk, IfErr, length};
ghost use Rattle.rail_base.specs.declared.limits.TheConstants.{MAX_TRIPS};
ghost use Rattle.timetable.specs.Running as running;
ghost use Rattle.timetable.specs.Day.{types_of};
ghost use Rattle.timetable.specs.Links.{list_of};
ghost use Rattle.timetable.specs.Picks.{RunsByPicks};
ghost use Rattle.timetable.specs.Plans.{are_units};
ghost use Rattle.answer_check.specs.Verdicts.{IsCompOf, IsFoundOf, IsRunsRefusal};

use answer_text::Runs;
use compositions::Composition;
use day_simulator::{SimulateRefusal, StepFault, simulate};
use rail_base::{CompNo, NoMemory, TripNo, UnitNo};
use rail_csv::UnitList;
use std::alloc::Global;
use timetable::{Instance, NamedPlan, Picks};

/// Why the runs of an answer are no plan that runs.
#[derive(Clone, Copy)]
pub(crate) enum RunsRefusal {
    /// There are not as many as the day has trips.
    Differ {
        /// How many runs there are.
        said: u32,
        /// How many trips the day has.
        found: u32,
    },
    /// The run of this trip, the first such, names a unit that the day does not have.
    UnknownUnit(TripNo),
    /// The plan stops with this fault.
    Stops(StepFault),
    /// Want of memory.
    NoMemory,
}

impl From<NoMemory> for RunsRefusal {
    ghost use Rattle.std.specs.Prelude.{◌≡◌};
    ghost use Rattle.answer_check.specs.declared.answered_plan.RunsRefusal.TheVariants as refusals;

    ghost from_gives = { λ _ e. e ≡ refusals.NoMemory };

    fn from(_error: NoMemory) -> RunsRefusal {
        RunsRefusal::NoMemory
    }
}

/// The picks of the plan that an answer's runs are, at most 400 of them, where it is one that runs.
pub(crate) fn picks_of(
    alloc: Global,
    instance: &Instance,
    runs: &Runs,
) -> Result<Picks, RunsRefusal>
    requires few { length runs.now ≤ MAX_TRIPS }
    ensures picks { IfOk result (RunsByPicks instance.now runs.now) }
    ensures refused { IfErr result (IsRunsRefusal instance.now runs.now) }
{
    let plan = plan_of(alloc, instance, runs)?;
    match simulate(alloc, instance, &plan) {
        Ok(_) => Ok(picks_of_plan(alloc, instance, &plan)?),
        Err(SimulateRefusal::Stops(fault)) => Err(RunsRefusal::Stops(fault)),
        Err(SimulateRefusal::NoMemory) => Err(RunsRefusal::NoMemory),
    }
}

/// The plan that runs are, where there is one for each trip of the day and each names units of the day.
fn plan_of(alloc: Global, instance: &Instance, runs: &Runs) -> Result<NamedPlan, RunsRefusal>
    requires few { length runs.now ≤ MAX_TRIPS }
    ensures plan { IfOk result (λ plan. (plan ≡ runs.now) × running.IsPlan instance.now plan) }
    ensures refused { IfErr result (IsRunsRefusal instance.now runs.now) }
{
    let lists = runs.items();
    let said = lists.len() as u32;
    let found = instance.trips();
    if said != found {
        return Err(RunsRefusal::Differ { said, found });
    }
    if let Some(trip) = first_unknown(instance, lists) {
        return Err(RunsRefusal::UnknownUnit(trip));
    }
    Ok(NamedPlan::copied(alloc, lists)?)
}

/// The first trip whose list has a unit that the day does not have.
fn first_unknown(instance: &Instance, lists: &[UnitList]) -> Option<TripNo>
    requires few { length lists.now ≤ MAX_TRIPS }
    ensures { IsFoundOf instance.now lists.now result }
{
    for trip in 0..lists.len() {
        if !is_known(instance, lists, trip) {
            return Some(TripNo(trip as u32));
        }
    }
    None
}

/// Whether each unit of a trip's list is one of the day.
#[tactic(auto, unfolding(rules::specs::Links::list_of))]
fn is_known(instance: &Instance, lists: &[UnitList], trip: usize) -> bool
    requires { trip < length lists.now }
    ensures { result ≡ are_units instance.now (list_of lists.now trip) }
{
    are_known(instance, lists[trip].items())
}

/// Whether each is a unit of the day.
fn are_known(instance: &Instance, units: &[UnitNo]) -> bool
    ensures { result ≡ are_units instance.now units.now }
{
    units.iter().all(|unit| unit.0 < instance.units())
}

/// The picks of a plan that runs: the compositions of its lists. The error is want of memory.
pub fn picks_of_plan(
    alloc: Global,
    instance: &Instance,
    plan: &NamedPlan,
) -> Result<Picks, NoMemory>
    requires runs { running.Runs instance.now plan.now }
    ensures { IfOk result (RunsByPicks instance.now plan.now) }
{
    let mut picks = Picks::new(alloc, instance.trips())?;
    for trip in 0..instance.trips() {
        let trip = TripNo(trip);
        picks.set(trip, comp_of(instance, plan, trip));
    }
    Ok(picks)
}

/// The composition of a trip's list in a plan that runs.
fn comp_of(instance: &Instance, plan: &NamedPlan, trip: TripNo) -> CompNo
    requires runs { running.Runs instance.now plan.now }
    requires trip { trip < length instance.now.trips }
    ensures { IsCompOf instance.now (types_of instance.now (list_of plan.now trip)) result }
{
    let types = plan.types(instance, trip);
    let Some(composition) = Composition::of(types.as_slice()) else {
        unreachable!();
    };
    let Some(comp) = instance.catalogue().find(&composition) else {
        unreachable!();
    };
    comp
}
