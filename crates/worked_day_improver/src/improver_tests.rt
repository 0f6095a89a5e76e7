//! What the improver of days proposes. The costs and bounds of the trial days were worked out by another program, which
//! takes the same steps.

ghost use Rattle.transitions.specs.Edges.{AreGraphs};

use branch_tree::{BoundAnswer, Multipliers, Region, Relaxation, Settled, Slacks, Weight};
use day_improver::DayImprover;
use improvers::{Improvement, Improver, Incumbent, Seen};
use price_bound::DayBounds;
use rail_base::{Money, NoMemory};
use sample_days::{ONE_LEFT, TURN, Texts, day_of};
use std::alloc::Global;
use std::test::Fail;
use timetable::{Instance, Picks};
use transitions::Graphs;
use trial_day::trial_instance;

/// What nodes with one region are shown with, where nothing was found for them yet.
#[derive(Drop)]
struct Blank {
    region: Region,
    multipliers: Multipliers,
    picks: Picks,
    slacks: Slacks,
}

impl Blank {
    /// That of the root region of a day. The error is want of memory.
    fn of(alloc: Global, day: &Instance) -> Result<Blank, NoMemory> {
        Ok(Blank {
            region: Region::root(alloc, day)?,
            multipliers: Multipliers::new(alloc)?,
            picks: Picks::new(alloc, day.trips())?,
            slacks: Slacks::new(alloc)?,
        })
    }

    /// The root in an attempt.
    fn root(&self, attempt: u32) -> Seen<'_> {
        Seen {
            node: 0,
            attempt,
            region: &self.region,
            kept: Money(0),
            multipliers: &self.multipliers,
            picks: &self.picks,
            slacks: &self.slacks,
            best: None,
            free_from: 0,
        }
    }

    /// A node below the root, with the multipliers and the plan that were proposed there.
    fn below<'a>(&'a self, proposed: &'a Improvement) -> Seen<'a> {
        Seen {
            node: 1,
            attempt: 0,
            region: &self.region,
            kept: Money(0),
            multipliers: multipliers_or(proposed, &self.multipliers),
            picks: &self.picks,
            slacks: &self.slacks,
            best: first_plan(proposed),
            free_from: 0,
        }
    }
}

/// The multipliers that were proposed, and others where none were.
fn multipliers_or<'a>(proposed: &'a Improvement, others: &'a Multipliers) -> &'a Multipliers {
    match &proposed.multipliers {
        Some(multipliers) => multipliers,
        None => others,
    }
}

/// The first picks that were proposed, as the best solution so far, of a cost above that of any plan of these days.
fn first_plan(proposed: &Improvement) -> Option<Incumbent<'_>> {
    match proposed.picks.first() {
        Some(picks) => Some(Incumbent {
            picks,
            cost: Money(1_000_000),
        }),
        None => None,
    }
}

/// The bound of a region under multipliers; -1 where there is none.
fn bound_under<R: Relaxation>(
    bounds: &mut R,
    blank: &Blank,
    multipliers: &Multipliers,
    weight: Weight,
    picks: &mut Picks,
) -> i128 {
    let fit = multipliers.fits(bounds.indices(), bounds.free_from());
    let trips = bounds.trips();
    if !fit || blank.region.trips() != trips || picks.len() != trips {
        return -1;
    }
    match bounds.bound(&blank.region, multipliers, weight, picks) {
        BoundAnswer::Value(value) => value.0,
        BoundAnswer::Empty => -1,
    }
}

/// What picks cost; -1 where they are no solution.
fn cost_of<R: Relaxation>(bounds: &mut R, picks: &Picks) -> i128 {
    if picks.len() != bounds.trips() || !bounds.follows(picks) {
        return -1;
    }
    match bounds.settle(picks) {
        Settled::Costs(cost) => cost.0,
        Settled::Broken { .. } => -1,
    }
}

/// Adds the bound of multipliers that were proposed to a text.
fn add_bound<R: Relaxation>(
    alloc: Global,
    bounds: &mut R,
    blank: &Blank,
    multipliers: &Option<Multipliers>,
    weight: Weight,
    text: &mut String,
) -> Result<(), Fail> {
    if let Some(multipliers) = multipliers {
        let mut picks = blank.picks.copy(alloc)?;
        let bound = bound_under(bounds, blank, multipliers, weight, &mut picks);
        write!(text, ", bound {bound}")?;
    }
    Ok(())
}

/// Adds the costs of picks that were proposed to a text.
fn add_plans<R: Relaxation>(
    bounds: &mut R,
    plans: &[Picks],
    text: &mut String,
) -> Result<(), Fail> {
    for picks in plans {
        let cost = cost_of(bounds, picks);
        write!(text, ", plan {cost}")?;
    }
    Ok(())
}

/// Whether a bound has the costs in it: not where the improver may be asked again.
fn weight_of(again: bool) -> Weight {
    if again { Weight::NoCost } else { Weight::Cost }
}

/// Adds to a text what an improver proposed: whether it may be asked again, the bound of its multipliers, without cost
/// where it may, the cost of each of its picks, and whether there is a cut.
fn add_told<R: Relaxation>(
    alloc: Global,
    bounds: &mut R,
    blank: &Blank,
    again: bool,
    to: &Improvement,
    text: &mut String,
) -> Result<(), Fail> {
    write!(text, "again {again}")?;
    let weight = weight_of(again);
    add_bound(alloc, bounds, blank, &to.multipliers, weight, text)?;
    add_plans(bounds, &to.picks, text)?;
    let has_cut = to.cut.is_some();
    write!(text, ", cut {has_cut}")?;
    Ok(())
}

/// Adds to a text what an improver proposes at a node below the root, with the same region and what was proposed there.
fn add_below<R: Relaxation, I: Improver>(
    alloc: Global,
    bounds: &mut R,
    blank: &Blank,
    improver: &mut I,
    proposed: &Improvement,
    text: &mut String,
) -> Result<(), Fail> {
    let mut to = Improvement::new(alloc);
    let again = improver.improve(&blank.below(proposed), &mut to)?;
    add_told(alloc, bounds, blank, again, &to, text)
}

/// Whether an improver, once asked at the root of a day in an attempt, may be asked again. What it proposes takes the
/// place of what was proposed before.
fn asked<I: Improver>(
    blank: &Blank,
    improver: &mut I,
    attempt: u32,
    to: &mut Improvement,
) -> Result<bool, NoMemory> {
    to.clear();
    improver.improve(&blank.root(attempt), to)
}

/// Adds to a text what an improver proposes at the root of a day, in so many attempts, and then at a node with the same
/// region.
fn add_proposed<R: Relaxation, I: Improver>(
    alloc: Global,
    bounds: &mut R,
    blank: &Blank,
    improver: &mut I,
    attempts: u32,
    text: &mut String,
) -> Result<(), Fail> {
    let mut to = Improvement::new(alloc);
    for attempt in 0..attempts {
        let again = asked(blank, improver, attempt, &mut to)?;
        add_told(alloc, bounds, blank, again, &to, text)?;
        text.push_str("; ")?;
    }
    add_below(alloc, bounds, blank, improver, &to, text)
}

/// Adds to a text what an improver that was made proposes for a day, with bounds that were made.
fn add_made<R: Relaxation + Drop, I: Improver + Drop>(
    alloc: Global,
    bounds: Result<R, NoMemory>,
    blank: &Blank,
    improver: Result<I, NoMemory>,
    attempts: u32,
    text: &mut String,
) -> Result<(), Fail> {
    let mut bounds = bounds?;
    let mut improver = improver?;
    add_proposed(alloc, &mut bounds, blank, &mut improver, attempts, text)
}

/// What the improver of days with so many evaluations proposes for a day with its edges, as a text.
fn proposed_along(
    alloc: Global,
    day: &Instance,
    graphs: &Graphs,
    evaluations: u32,
    attempts: u32,
) -> Result<String, Fail>
    requires { AreGraphs day.now graphs.now }
{
    let blank = Blank::of(alloc, day)?;
    let mut text = String::new(alloc);
    let bounds = DayBounds::new(alloc, day, graphs);
    let improver = DayImprover::new(alloc, day, graphs, evaluations);
    add_made(alloc, bounds, &blank, improver, attempts, &mut text)?;
    Ok(text)
}

/// What an improver with so many evaluations proposes at the root of a day, in so many attempts, and then at a node
/// with the same region, as a text.
fn proposed(
    alloc: Global,
    day: &Instance,
    evaluations: u32,
    attempts: u32,
) -> Result<String, Fail> {
    let graphs = Graphs::build(alloc, day)?;
    proposed_along(alloc, day, &graphs, evaluations, attempts)
}

/// A trial day of seed 7.
#[derive(Clone, Copy)]
enum Trial {
    /// That of 10 trips.
    Ten,
    /// That of 20 trips.
    Twenty,
}

/// The day itself.
fn day_of_trial(alloc: Global, trial: Trial) -> Result<Instance, NoMemory> {
    match trial {
        Trial::Ten => trial_instance(alloc, 7, 10),
        Trial::Twenty => trial_instance(alloc, 7, 20),
    }
}

/// What is proposed for a trial day.
fn proposed_for_trial(alloc: Global, trial: Trial, evaluations: u32) -> Result<String, Fail> {
    let day = day_of_trial(alloc, trial)?;
    proposed(alloc, &day, evaluations, 1)
}

/// Trial days, how many evaluations the improver has, and what is proposed.
const TRIALS: &[(Trial, u32, &str)] = &[
    // A plan costs the bound.
    (
        Trial::Ten,
        24,
        "again false, bound 2440, plan 2440, cut true; again false, bound 2440, plan 2440, cut true",
    ),
    // There is a gap at the root.
    (
        Trial::Twenty,
        40,
        "again false, bound 4878, plan 4880, cut true; again false, bound 4880, plan 4880, cut true",
    ),
    // Nothing is proposed without evaluations.
    (
        Trial::Ten,
        0,
        "again false, cut false; again false, cut false",
    ),
];

#[test]
fn trial_days_have_bounds_and_plans(rt: HostRuntime) -> Result<(), Fail> {
    for (trial, evaluations, wanted) in TRIALS {
        let told = proposed_for_trial(rt.alloc(), *trial, *evaluations)?;
        assert!(rt; told.as_str() == *wanted, "{told}");
    }
    Ok(())
}

/// What is proposed in two attempts for a day of texts.
fn proposed_for_texts(alloc: Global, texts: &Texts<'_>) -> Result<String, Fail> {
    let day = day_of(alloc, texts)?;
    proposed(alloc, &day, 20, 2)
}

/// A day on which one unit more is wanted at the end than there is at the start.
const ONE_TOO_MANY: Texts<'static> = Texts {
    stock: b"station,type,start,end\nX,A,2,3\n",
    ..TURN
};

/// A day on which both units are wanted at Y at the end, and one has to come back at least.
const NONE_COMES_BACK: Texts<'static> = Texts {
    stock: b"station,type,start,end\nX,A,2,0\nY,A,0,2\n",
    ..TURN
};

/// Days, and how what is proposed for them begins: a day that cannot balance has a ray, one on which no plan is found
/// is looked at again, and one that balances has neither.
const FIRST_PROPOSED: &[(Texts<'static>, &str)] = &[
    (ONE_TOO_MANY, "again true, bound 1, cut false; "),
    (NONE_COMES_BACK, "again true, "),
    (ONE_LEFT, "again false, "),
];

#[test]
fn days_that_cannot_balance_are_looked_at_again(rt: HostRuntime) -> Result<(), Fail> {
    for (texts, wanted) in FIRST_PROPOSED {
        let told = proposed_for_texts(rt.alloc(), texts)?;
        assert!(rt; told.as_str().starts_with(*wanted), "{told}");
    }
    Ok(())
}
