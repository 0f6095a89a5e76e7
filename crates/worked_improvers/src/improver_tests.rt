//! How improvers are asked, and what is made of what they propose, by hand.

ghost use Rattle.std.specs.Prelude.{◌≤◌};
ghost use Rattle.rail_base.specs.declared.limits.TheConstants.{MAX_BRANCHINGS};
ghost use Rattle.branch_tree.specs.Regions.{IsOver};
ghost use Rattle.transitions.specs.Edges.{AreGraphs};

use crate::proposals::{multipliers_of, picks_of};
use crate::scripts::{Call, CutNumbers, NO_MORE, Scripted};
use advisors::Advisor;
use branch_tree::{Cut, Region, Relaxation};
use improvers::{Improvement, Improver, NoImprover, Seen};
use price_bound::DayBounds;
use rail_base::limits::MAX_BRANCHINGS;
use rail_base::{CompNo, NoMemory, TripNo};
use sample_days::{ONE_LEFT, RING, Texts, day_of};
use search::{Allowed, Found, solve_with};
use std::alloc::{AllocError, Global};
use std::test::Fail;
use timetable::Instance;
use transitions::Graphs;

/// What an improver proposes at each of its calls, and how often it is asked about a node.
#[derive(Drop)]
struct Proposing {
    alloc: Global,
    /// The indices and values of the multipliers.
    puts: &'static [(u32, i64)],
    /// The composition of each trip, of picks that are proposed.
    picks: &'static [&'static [u32]],
    /// How often these picks are proposed at a call.
    times: u32,
    /// The trip and the composition of the cut.
    cut: (u32, u32),
    /// How often it is asked about a node at most.
    attempts: u32,
}

impl Improver for Proposing {
    fn improve(&mut self, seen: &Seen<'_>, to: &mut Improvement) -> Result<bool, NoMemory> {
        to.multipliers = Some(multipliers_of(self.alloc, self.puts)?);
        for _time in 0..self.times {
            for picks in self.picks {
                to.picks.push(picks_of(self.alloc, picks)?)?;
            }
        }
        let (trip, comp) = self.cut;
        to.cut = Some(Cut::Only {
            trip: TripNo(trip),
            comp: CompNo(comp),
        });
        Ok(seen.attempt < self.attempts)
    }
}

/// What is found on a day of these texts with an improver and no advisor.
fn told_with<I: Improver>(
    alloc: Global,
    texts: &Texts<'_>,
    branchings: u32,
    improver: &mut I,
) -> Result<String, Fail> {
    let day = day_of(alloc, texts)?;
    told_on(alloc, &day, branchings, improver)
}

/// What is found on a day.
fn told_on<I: Improver>(
    alloc: Global,
    day: &Instance,
    branchings: u32,
    improver: &mut I,
) -> Result<String, Fail> {
    let graphs = Graphs::build(alloc, day)?;
    told_along(alloc, day, &graphs, branchings, improver)
}

/// What is found along the edges of a day, as a text.
fn told_along<I: Improver>(
    alloc: Global,
    day: &Instance,
    graphs: &Graphs,
    branchings: u32,
    improver: &mut I,
) -> Result<String, Fail>
    requires graphs { AreGraphs day.now graphs.now }
{
    let found = found_along(alloc, day, graphs, branchings, improver)?;
    Ok(text_of(alloc, &found)?)
}

/// What was found, with the cost of the plan and the bound, and how many branchings were made.
fn text_of(alloc: Global, found: &Found) -> Result<String, AllocError> {
    match found {
        Found::Optimal { cost, tree, .. } => format!(in alloc;
            "optimal {}, {}",
            cost.0,
            tree.branchings()
        ),
        Found::Infeasible { tree } => format!(in alloc; "infeasible, {}", tree.branchings()),
        Found::Bounded {
            best: Some(best),
            bound,
            tree,
        } => {
            format!(in alloc;
                "bounded {}, plan {}, {}",
                bound.0,
                best.cost.0,
                tree.branchings()
            )
        }
        Found::Bounded {
            best: None,
            bound,
            tree,
        } => format!(in alloc; "bounded {}, {}", bound.0, tree.branchings()),
    }
}

/// What is found along the edges of a day. So much as a test never grants is refused as want of memory is.
fn found_along<I: Improver>(
    alloc: Global,
    day: &Instance,
    graphs: &Graphs,
    branchings: u32,
    improver: &mut I,
) -> Result<Found, NoMemory>
    requires graphs { AreGraphs day.now graphs.now }
{
    if branchings > MAX_BRANCHINGS {
        return Err(NoMemory);
    }
    let root = Region::root(alloc, day)?;
    let bounds = DayBounds::new(alloc, day, graphs)?;
    found_by(alloc, bounds, &root, branchings, improver)
}

/// What is found in a root by a relaxation that it is over.
fn found_by<R: Relaxation + Drop, I: Improver>(
    alloc: Global,
    mut bounds: R,
    root: &Region,
    branchings: u32,
    improver: &mut I,
) -> Result<Found, NoMemory>
    requires over { IsOver (R.meanings (R.problem bounds)).trips (R.meanings (R.problem bounds)).catalogue root.now }
    requires branchings { branchings ≤ MAX_BRANCHINGS }
{
    let mut advisors: Vec<Box<dyn Advisor>> = Vec::new(alloc);
    let allowed = Allowed {
        branchings,
        rounds: 0,
    };
    solve_with(alloc, &mut bounds, root, allowed, improver, &mut advisors)
}

/// What doesn't fit, follow or cut: multipliers of no index and below 0 where they may not be, picks for too few and
/// for too many trips, of no composition, and no solutions, and a cut of no trip.
fn rubbish(alloc: Global) -> Proposing {
    Proposing {
        alloc,
        puts: &[(0, -1_000_000_000_000), (1_000_000, 1_000_000_000_000)],
        picks: &[&[], &[0], &[0, 0, 0, 0], &[7_000, 7_000], &[0, 0], &[1, 1]],
        times: 100,
        cut: (7_000, 7_000),
        attempts: 3,
    }
}

/// What is found is the same with no improver as with one whose proposals are of no use.
#[test]
fn rubbish_changes_nothing(rt: HostRuntime) -> Result<(), Fail> {
    let alloc = rt.alloc();
    for texts in &[ONE_LEFT, RING] {
        for branchings in 0..4 {
            let without = told_with(alloc, texts, branchings, &mut NoImprover)?;
            let with = told_with(alloc, texts, branchings, &mut rubbish(alloc))?;
            assert!(rt; with.as_str() == without.as_str(), "{branchings}: {with}");
        }
    }
    Ok(())
}

/// A search with an improver that has a script: what it shows, and line by line what the improver is shown and what is
/// found.
struct Case {
    about: &'static str,
    texts: Texts<'static>,
    branchings: u32,
    script: &'static [Call],
    told: &'static str,
}

/// Proposes at the root of the day where one unit is left at Y a cut in place of another, a plan and multipliers. Under
/// 30 at index 3, (AA, AA) has 150, under 10 it has 130, and under 70 both it and the plan (AA, A) have 190.
const ALL: &[Call] = &[
    Call {
        puts: &[(3, 30)],
        cut: CutNumbers::Only(1, 0),
        more: true,
        ..NO_MORE
    },
    Call {
        puts: &[(3, 10)],
        picks: &[&[1, 1], &[1, 0], &[1, 0]],
        cut: CutNumbers::AtMost(0, 0, 1),
        more: true,
    },
    NO_MORE,
    Call {
        puts: &[(3, 70)],
        more: true,
        ..NO_MORE
    },
];

/// Proposes multipliers of both hand-overs of the ring, under which the least value is 1270, and then the plan
/// (AAA, AA, A, AAA), which costs as much.
const CLOSED_BY_PLAN: &[Call] = &[
    Call {
        puts: &[(7, 500), (11, -470)],
        more: true,
        ..NO_MORE
    },
    Call {
        picks: &[&[2, 1, 0, 2]],
        more: true,
        ..NO_MORE
    },
];

/// Proposes the cut that leaves T3 of the ring A alone, and at that side a plan in which T3 has AA.
const PLAN_FROM_ELSEWHERE: &[Call] = &[
    Call {
        cut: CutNumbers::Only(2, 0),
        ..NO_MORE
    },
    Call {
        picks: &[&[2, 0, 1, 2]],
        more: true,
        ..NO_MORE
    },
];

/// Searches with improvers.
const CASES: &[Case] = &[
    // T1 has A alone at node 1, which a ray closes.
    Case {
        about: "what is proposed is used, until no more is wanted or the node is closed",
        texts: ONE_LEFT,
        branchings: 1,
        script: ALL,
        told: "node 0, attempt 0; left 2 2; kept 120 at; picks 1 1; slacks 2:-1 3:1; no plan; free from 2\n\
            node 0, attempt 1; left 2 2; kept 150 at 3:30; picks 1 1; slacks 2:-1 3:1; no plan; free from 2\n\
            node 0, attempt 2; left 2 2; kept 150 at 3:30; picks 1 1; slacks 2:-1 3:1; plan 190 by 1 0; free from 2\n\
            node 2, attempt 0; left 1 2; kept 150 at 3:30; picks 1 1; slacks 2:-1 3:1; plan 190 by 1 0; free from 2\n\
            optimal 190, 1",
    },
    Case {
        about: "a plan closes the node",
        texts: RING,
        branchings: 0,
        script: CLOSED_BY_PLAN,
        told: "node 0, attempt 0; left 3 3 3 3; kept 300 at; picks 2 1 1 2; slacks 7:1 8:-1 10:1 11:-1; no plan; \
            free from 4\n\
            node 0, attempt 1; left 3 3 3 3; kept 1270 at 7:500 11:-470; picks 2 0 0 2; slacks 7:-1 8:1 10:-1 11:1; \
            no plan; free from 4\n\
            optimal 1270, 0",
    },
    // At node 1 the split leaves A for T3, and the join takes A, where T2 has AA. At node 2 the least is 1270.
    Case {
        about: "a plan need not lie in the node",
        texts: RING,
        branchings: 1,
        script: PLAN_FROM_ELSEWHERE,
        told: "node 0, attempt 0; left 3 3 3 3; kept 300 at; picks 2 1 1 2; slacks 7:1 8:-1 10:1 11:-1; no plan; \
            free from 4\n\
            node 1, attempt 0; left 3 3 1 3; kept 1240 at; picks 2 1 0 1; slacks 4:1 10:1 11:-1; no plan; \
            free from 4\n\
            node 1, attempt 1; left 3 3 1 3; kept 1240 at; picks 2 1 0 1; slacks 4:1 10:1 11:-1; \
            plan 1270 by 2 0 1 2; free from 4\n\
            bounded 1240, plan 1270, 1",
    },
];

/// What the improver of a search is shown, and then what is found.
fn told_of(alloc: Global, case: &Case) -> Result<String, Fail> {
    let mut improver = Scripted::by(alloc, case.script);
    let found = told_with(alloc, &case.texts, case.branchings, &mut improver)?;
    Ok(format!(in alloc; "{}{}", improver.shown(), found)?)
}

#[test]
fn what_is_proposed_is_used(rt: HostRuntime) -> Result<(), Fail> {
    for case in CASES {
        let text = told_of(rt.alloc(), case)?;
        assert!(rt; text.as_str() == case.told, "{}:\n{text}", case.about);
    }
    Ok(())
}
