//! What a search finds with the improver of days, and what a watcher is told meanwhile.

ghost use Rattle.std.specs.Prelude.{◌≤◌};
ghost use Rattle.rail_base.specs.declared.limits.TheConstants.{MAX_BRANCHINGS};
ghost use Rattle.branch_tree.specs.Regions.{IsOver};
ghost use Rattle.transitions.specs.Edges.{AreGraphs};

use advisors::Advisor;
use branch_tree::{Region, Relaxation};
use day_improver::{DayImprover, Progress, Watcher};
use improvers::{Improver, NoImprover};
use price_bound::{Change, DayBounds};
use rail_base::NoMemory;
use rail_base::limits::MAX_BRANCHINGS;
use sample_days::{TURN, Texts, day_of};
use search::{Allowed, Found, solve_with};
use std::alloc::{AllocError, Global};
use std::process::Abort;
use std::test::Fail;
use timetable::Instance;
use transitions::Graphs;
use trial_day::trial_instance;

/// How a search ends, with what its plan costs or its bound, and how many branchings it made, as a text.
fn text_of(alloc: Global, found: &Found) -> Result<String, AllocError> {
    match found {
        Found::Optimal { cost, tree, .. } => format!(in alloc;
            "optimal {}, {}",
            cost.0,
            tree.branchings()
        ),
        Found::Infeasible { tree } => format!(in alloc; "infeasible, {}", tree.branchings()),
        Found::Bounded { bound, tree, .. } => {
            format!(in alloc; "bounded {}, {}", bound.0, tree.branchings())
        }
    }
}

/// What a search of a day finds with an improver and no advisor, of as many branchings as may be granted at the most.
fn searched<I: Improver>(
    alloc: Global,
    day: &Instance,
    graphs: &Graphs,
    branchings: u32,
    improver: &mut I,
) -> Result<Found, NoMemory>
    requires { AreGraphs day.now graphs.now }
{
    let root = Region::root(alloc, day)?;
    let bounds = DayBounds::new(alloc, day, graphs)?;
    let most = branchings.min(MAX_BRANCHINGS);
    found_by(alloc, bounds, &root, most, improver)
}

/// What a search of a day finds with an improver and no advisor, as a text.
fn found<I: Improver>(
    alloc: Global,
    day: &Instance,
    graphs: &Graphs,
    branchings: u32,
    improver: &mut I,
) -> Result<String, Fail>
    requires { AreGraphs day.now graphs.now }
{
    let found = searched(alloc, day, graphs, branchings, improver)?;
    Ok(text_of(alloc, &found)?)
}

/// The same with an improver that was made.
fn found_by_made<I: Improver + Drop>(
    alloc: Global,
    day: &Instance,
    graphs: &Graphs,
    branchings: u32,
    made: Result<I, NoMemory>,
) -> Result<String, Fail>
    requires { AreGraphs day.now graphs.now }
{
    let mut improver = made?;
    found(alloc, day, graphs, branchings, &mut improver)
}

/// What is found in a root by a relaxation that it is over.
fn found_by<R: Relaxation + Drop, I: Improver>(
    alloc: Global,
    mut bounds: R,
    root: &Region,
    branchings: u32,
    improver: &mut I,
) -> Result<Found, NoMemory>
    requires over { IsOver (R.meanings (R.problem bounds)).trips (R.meanings (R.problem bounds)).catalogue root.now }
    requires branchings { branchings ≤ MAX_BRANCHINGS }
{
    let mut advisors: Vec<Box<dyn Advisor>> = Vec::new(alloc);
    let allowed = Allowed {
        branchings,
        rounds: 0,
    };
    solve_with(alloc, &mut bounds, root, allowed, improver, &mut advisors)
}

/// What is found with the improver of days, for a day with its edges.
fn found_along(
    alloc: Global,
    day: &Instance,
    graphs: &Graphs,
    evaluations: u32,
    branchings: u32,
) -> Result<String, Fail>
    requires { AreGraphs day.now graphs.now }
{
    let made = DayImprover::new(alloc, day, graphs, evaluations);
    found_by_made(alloc, day, graphs, branchings, made)
}

/// What is found with the improver of days.
fn found_improved(
    alloc: Global,
    day: &Instance,
    evaluations: u32,
    branchings: u32,
) -> Result<String, Fail> {
    let graphs = Graphs::build(alloc, day)?;
    found_along(alloc, day, &graphs, evaluations, branchings)
}

/// What is found without an improver.
fn found_alone(alloc: Global, day: &Instance, branchings: u32) -> Result<String, Fail> {
    let graphs = Graphs::build(alloc, day)?;
    found(alloc, day, &graphs, branchings, &mut NoImprover)
}

/// Asserts what is found with the improver of days.
fn expect_found(
    rt: &impl Abort,
    alloc: Global,
    day: &Instance,
    evaluations: u32,
    branchings: u32,
    wanted: &str,
) -> Result<(), Fail> {
    let text = found_improved(alloc, day, evaluations, branchings)?;
    assert!(rt; text.as_str() == wanted, "{text}");
    Ok(())
}

/// A day on which one unit more is wanted at the end than there is at the start: no plan of it runs.
const ONE_TOO_MANY: &Texts<'static> = &Texts {
    stock: b"station,type,start,end\nX,A,2,3\n",
    ..TURN
};

#[test]
fn a_day_that_cannot_balance_ends_without_a_branching(rt: HostRuntime) -> Result<(), Fail> {
    let day = day_of(rt.alloc(), ONE_TOO_MANY)?;
    expect_found(&rt, rt.alloc(), &day, 1, 0, "infeasible, 0")
}

/// How many evaluations and branchings are granted on the trial day of 20 trips, and what is found. The day has a plan
/// of cost 4880, and none that costs less.
const TRIALS: &[(u32, u32, &str)] = &[(40, 0, "bounded 4878, 0"), (40, 2, "optimal 4880, 1")];

/// Asserts what is found on that day.
fn expect_trials(rt: &impl Abort, alloc: Global, day: &Instance) -> Result<(), Fail> {
    for &(evaluations, branchings, wanted) in TRIALS {
        expect_found(rt, alloc, day, evaluations, branchings, wanted)?;
    }
    Ok(())
}

#[test]
fn plans_of_a_trial_day(rt: HostRuntime) -> Result<(), Fail> {
    let day = trial_instance(rt.alloc(), 7, 20)?;
    expect_trials(&rt, rt.alloc(), &day)
}

/// Asserts that the same is found with an improver without evaluations as without an improver.
fn expect_alike(
    rt: &impl Abort,
    alloc: Global,
    day: &Instance,
    branchings: u32,
) -> Result<(), Fail> {
    let alone = found_alone(alloc, day, branchings)?;
    expect_found(rt, alloc, day, 0, branchings, alone.as_str())
}

/// Asserts that on a day, of none to three branchings.
fn expect_all_alike(rt: &impl Abort, alloc: Global, day: &Instance) -> Result<(), Fail> {
    for branchings in 0..4 {
        expect_alike(rt, alloc, day, branchings)?;
    }
    Ok(())
}

#[test]
fn no_evaluations_change_nothing(rt: HostRuntime) -> Result<(), Fail> {
    let day = trial_instance(rt.alloc(), 7, 10)?;
    expect_all_alike(&rt, rt.alloc(), &day)
}

/// Keeps what it was told last, and counts how often it was told of a lower bound or a dearer plan than before.
#[derive(Drop)]
struct Last {
    told: Option<Progress>,
    fallen: u32,
}

impl Watcher for Last {
    fn watch(&mut self, progress: &Progress) {
        if has_fallen(progress, &self.told) {
            self.fallen = self.fallen.saturating_add(1);
        }
        self.told = Some(*progress);
    }
}

/// Whether one has a lower bound or a dearer plan than what was told before, if anything was.
fn has_fallen(progress: &Progress, told: &Option<Progress>) -> bool {
    match told {
        Some(before) => progress.bound < before.bound || is_dearer(progress, before),
        None => false,
    }
}

/// Whether the best plan of one is none or costs more than that of another.
fn is_dearer(progress: &Progress, before: &Progress) -> bool {
    match (progress.plan, before.plan) {
        (Some(plan), Some(known)) => plan.0 > known.0,
        (None, Some(_)) => true,
        _ => false,
    }
}

/// Searches a day with its edges, with an improver of 40 evaluations that tells a watcher.
fn search_watched(
    alloc: Global,
    day: &Instance,
    graphs: &Graphs,
    branchings: u32,
    last: &mut Last,
) -> Result<(), Fail>
    requires { AreGraphs day.now graphs.now }
{
    let none: &[Change] = &[];
    let made = DayImprover::watched(alloc, day, graphs, none, 40, last);
    let _text = found_by_made(alloc, day, graphs, branchings, made)?;
    Ok(())
}

/// What a watcher was told last in a search of the trial day of 20 trips, as a text.
fn told(alloc: Global, branchings: u32) -> Result<String, Fail> {
    let day = trial_instance(alloc, 7, 20)?;
    told_on(alloc, &day, branchings)
}

/// What a watcher was told last in a search of a day, as a text.
fn told_on(alloc: Global, day: &Instance, branchings: u32) -> Result<String, Fail> {
    let graphs = Graphs::build(alloc, day)?;
    told_along(alloc, day, &graphs, branchings)
}

/// What a watcher was told last in a search of a day with its edges, as a text.
fn told_along(
    alloc: Global,
    day: &Instance,
    graphs: &Graphs,
    branchings: u32,
) -> Result<String, Fail>
    requires { AreGraphs day.now graphs.now }
{
    let mut last = Last {
        told: None,
        fallen: 0,
    };
    search_watched(alloc, day, graphs, branchings, &mut last)?;
    Ok(text_of_last(alloc, &last)?)
}

/// What a watcher was told last, as a text.
fn text_of_last(alloc: Global, last: &Last) -> Result<String, AllocError> {
    let fallen = last.fallen;
    match &last.told {
        Some(told) => format!(in alloc;
            "{} {} {} {:?} {:?}, {fallen} fell",
            told.node, told.branchings, told.evaluations, told.bound, told.plan
        ),
        None => format!(in alloc; "nothing"),
    }
}

/// How many branchings are granted, and what a watcher is told last.
const WATCHED: &[(u32, &str)] = &[
    (0, "0 0 40 Some(Money(4878)) Some(Money(4880)), 0 fell"),
    (2, "1 1 70 Some(Money(4878)) Some(Money(4880)), 0 fell"),
];

#[test]
fn a_watcher_is_told_how_far_the_search_has_come(rt: HostRuntime) -> Result<(), Fail> {
    for (branchings, wanted) in WATCHED {
        let text = told(rt.alloc(), *branchings)?;
        assert!(rt; text.as_str() == *wanted, "{branchings}: {text}");
    }
    Ok(())
}
