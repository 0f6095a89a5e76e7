//! Days whose search asks an improver, by hand.

ghost use Rattle.transitions.specs.Edges.{AreGraphs};

use crate::kept_tests::two_picks;
use crate::telling::told;
use advisors::Advisor;
use answer_text::Answer;
use branch_tree::Multipliers;
use day_planner::{Allowed, improved_answer_for};
use improvers::{Improvement, Improver, NoImprover, Seen};
use rail_base::NoMemory;
use sample_days::{ONE_LEFT, TURN, Texts, day_of};
use std::alloc::Global;
use std::process::Abort;
use std::test::Fail;
use timetable::Instance;
use transitions::Graphs;

/// Proposes a multiplier and the picks of two trips.
#[derive(Drop)]
struct Proposing {
    alloc: Global,
    /// The index and the value of the multiplier.
    put: (u32, i64),
    /// The compositions of the two trips.
    picks: [u32; 2],
}

impl Improver for Proposing {
    fn improve(&mut self, _seen: &Seen<'_>, to: &mut Improvement) -> Result<bool, NoMemory> {
        let multipliers = multiplier(self.alloc, self.put)?;
        to.multipliers = Some(multipliers);
        let picks = two_picks(self.alloc, self.picks)?;
        to.picks.push(picks)?;
        Ok(false)
    }
}

/// Multipliers of which one alone is put, behind its index.
fn multiplier(alloc: Global, put: (u32, i64)) -> Result<Multipliers, NoMemory> {
    let (index, value) = put;
    let mut multipliers = Multipliers::new(alloc)?;
    let _is_put = multipliers.put(index, value).is_ok();
    Ok(multipliers)
}

/// The answer to a day with its edges where no branching is granted.
fn answered<I: Improver>(
    alloc: Global,
    day: &Instance,
    graphs: &Graphs,
    improver: &mut I,
) -> Result<Answer, NoMemory>
    requires { AreGraphs day.now graphs.now }
{
    let allowed = Allowed {
        branchings: 0,
        rounds: 0,
    };
    let mut advisors: Vec<Box<dyn Advisor>> = Vec::new(alloc);
    improved_answer_for(alloc, day, graphs, allowed, improver, &mut advisors)
}

/// What is answered to a day with its edges.
fn told_along<I: Improver>(
    alloc: Global,
    day: &Instance,
    graphs: &Graphs,
    improver: &mut I,
) -> Result<String, Fail>
    requires { AreGraphs day.now graphs.now }
{
    let answer = answered(alloc, day, graphs, improver)?;
    told(alloc, &answer)
}

/// What is answered to a day.
fn told_on<I: Improver>(alloc: Global, day: &Instance, improver: &mut I) -> Result<String, Fail> {
    let graphs = Graphs::build(alloc, day)?;
    told_along(alloc, day, &graphs, improver)
}

/// What is answered to a day of these texts.
fn told_with<I: Improver>(
    alloc: Global,
    texts: &Texts<'_>,
    improver: &mut I,
) -> Result<String, Fail> {
    let day = day_of(alloc, texts)?;
    told_on(alloc, &day, improver)
}

/// Asserts what is answered to a day of these texts.
fn expect<I: Improver>(
    rt: &impl Abort,
    alloc: Global,
    texts: &Texts<'_>,
    improver: &mut I,
    wanted: &str,
) -> Result<(), Fail> {
    let text = told_with(alloc, texts, improver)?;
    assert!(rt; text.as_str() == wanted, "{text}");
    Ok(())
}

/// The day on which one unit is left at Y.
const LEFT: &Texts<'static> = &ONE_LEFT;

/// The day on which both units are to be back at X.
const BACK: &Texts<'static> = &TURN;

/// On the day where one unit is left at Y, (AA, AA) costs 120 and is no solution; with 30 at index 3 it has the priced
/// value 150, and (AA, A) is a solution that costs 190.
#[test]
fn good_picks_are_answered(rt: HostRuntime) -> Result<(), Fail> {
    let alloc = rt.alloc();
    expect(&rt, alloc, LEFT, &mut NoImprover, "bounded 120")?;
    let mut improver = Proposing {
        alloc,
        put: (3, 30),
        picks: [1, 0],
    };
    expect(
        &rt,
        alloc,
        LEFT,
        &mut improver,
        "bounded 150 plan 190: 0 1, 1",
    )
}

/// Where both units are to be back at X, (AA, AA) is a solution that costs 120. An improver that proposes the solution
/// (A, A), which costs 1060, changes nothing.
#[test]
fn dear_picks_change_nothing(rt: HostRuntime) -> Result<(), Fail> {
    let alloc = rt.alloc();
    let mut improver = Proposing {
        alloc,
        put: (0, 1_000),
        picks: [0, 0],
    };
    expect(&rt, alloc, BACK, &mut improver, "optimal 120: 0 1, 1 0")
}
