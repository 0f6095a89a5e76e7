//! A trip keeps its composition, and another costs more with any but one, by hand.

ghost use Rattle.std.specs.Prelude.{◌≡◌, length};
ghost use Rattle.timetable.specs.Compositions.{compositions_of};
ghost use Rattle.transitions.specs.Edges.{AreGraphs};
ghost use Rattle.branch_tree.specs.Regions.{IsFilled, IsOver};
ghost use Rattle.price_bound.specs.ChangedDays.{AreChanges};

use crate::kept::{answer_within, is_change, kept_region};
use crate::telling::told;
use answer_check::{claim_of, claimed};
use answer_text::Answer;
use branch_tree::{Claim, Region, Relaxation};
use cert_check::{Reason, Verdict, checked};
use price_bound::{Change, DayBounds};
use rail_base::{CompNo, NoMemory, TripNo};
use sample_days::{ONE_LEFT, TURN, Texts, day_of};
use std::alloc::Global;
use std::test::Fail;
use timetable::{Instance, Picks};
use transitions::Graphs;

/// What is asked of a day of two trips, and what is answered.
struct Row {
    texts: Texts<'static>,
    /// The composition that T1 keeps.
    kept: u32,
    /// The composition with which T2 costs no more.
    base: u32,
    /// The picks of the plan that is answered, where there is one.
    picks: [u32; 2],
    /// The answer.
    text: &'static str,
}

/// T2 costs 7 more with another composition than its base. Where T1 keeps A, or AA, so does T2, since both units are to
/// be back at X: that costs 1060, or 120. Where a unit is to be left at Y, T2 has fewer units than T1, and there is no
/// plan in which T1 has A.
const ROWS: &[Row] = &[
    Row {
        texts: TURN,
        kept: 0,
        base: 1,
        picks: [0, 0],
        text: "optimal 1067: 0, 0",
    },
    Row {
        texts: TURN,
        kept: 0,
        base: 0,
        picks: [0, 0],
        text: "optimal 1060: 0, 0",
    },
    Row {
        texts: TURN,
        kept: 1,
        base: 0,
        picks: [1, 1],
        text: "optimal 127: 0 1, 1 0",
    },
    Row {
        texts: ONE_LEFT,
        kept: 0,
        base: 0,
        picks: [0, 0],
        text: "infeasible",
    },
];

/// What is answered is as the rows say.
#[test]
fn kept_trips_are_answered(rt: HostRuntime) -> Result<(), Fail> {
    for row in ROWS {
        let text = told_row(rt.alloc(), row)?;
        assert!(rt; text.as_str() == row.text, "{text}");
    }
    Ok(())
}

/// What is answered to a row.
fn told_row(alloc: Global, row: &Row) -> Result<String, Fail> {
    let day = day_of(alloc, &row.texts)?;
    told_on(alloc, &day, row)
}

/// What is answered to a row on its day.
fn told_on(alloc: Global, day: &Instance, row: &Row) -> Result<String, Fail> {
    match kept_region(alloc, day, TripNo(0), CompNo(row.kept))? {
        Some(region) => told_in(alloc, day, region, row),
        None => Err(Fail::new("T1 has no choice")),
    }
}

/// What is answered to a row in a region of its day.
fn told_in(alloc: Global, day: &Instance, mut region: Region, row: &Row) -> Result<String, Fail>
    requires over { IsOver (length day.now.trips) (compositions_of day.now) region }
    requires filled { IsFilled region }
{
    let change = Change {
        trip: TripNo(1),
        base: CompNo(row.base),
        cost: 7,
    };
    if !is_change(day, &change) {
        return Err(Fail::new("T2 has no such change"));
    }
    told_under(alloc, day, &[change], &mut region, row)
}

/// What is answered to a row in a region of its day under changes.
fn told_under(
    alloc: Global,
    day: &Instance,
    changes: &[Change],
    region: &mut Region,
    row: &Row,
) -> Result<String, Fail>
    requires changes { AreChanges day.now changes.now }
    requires over { IsOver (length day.now.trips) (compositions_of day.now) region.old }
    requires filled { IsFilled region.old }
{
    let graphs = Graphs::build(alloc, day)?;
    let asked = Asked {
        day,
        graphs: &graphs,
        changes,
    };
    told_along(alloc, asked, region, row)
}

/// A day with its edges, and the changes under which it is asked about.
#[derive(Clone, Copy)]
struct Asked<'a> {
    day: &'a Instance,
    graphs: &'a Graphs,
    changes: &'a [Change],
}

/// What is answered to a row in a region of its day under changes, where the checker finds it proved.
fn told_along(
    alloc: Global,
    asked: Asked<'_>,
    region: &mut Region,
    row: &Row,
) -> Result<String, Fail>
    requires graphs { AreGraphs asked.day.now asked.graphs.now }
    requires changes { AreChanges asked.day.now asked.changes.now }
    requires over { IsOver (length asked.day.now.trips) (compositions_of asked.day.now) region.old }
    requires filled { IsFilled region.old }
{
    let answer = answer_within(alloc, asked.day, asked.graphs, asked.changes, region, 1)?;
    expect_proved(alloc, asked, region, &answer, row.picks)?;
    told(alloc, &answer)
}

/// Fails the test where the checker doesn't find an answer proved with these picks over the same region and changes.
fn expect_proved(
    alloc: Global,
    asked: Asked<'_>,
    region: &mut Region,
    answer: &Answer,
    compositions: [u32; 2],
) -> Result<(), Fail>
    requires graphs { AreGraphs asked.day.now asked.graphs.now }
    requires changes { AreChanges asked.day.now asked.changes.now }
    requires over { IsOver (length asked.day.now.trips) (compositions_of asked.day.now) region.old }
{
    let picks = two_picks(alloc, compositions)?;
    expect_verdicts(alloc, asked, region, answer, &picks)
}

/// Fails the test where the checker doesn't find an answer proved with picks, or finds it proved where it says of another
/// number of branchings.
fn expect_verdicts(
    alloc: Global,
    asked: Asked<'_>,
    region: &mut Region,
    answer: &Answer,
    picks: &Picks,
) -> Result<(), Fail>
    requires graphs { AreGraphs asked.day.now asked.graphs.now }
    requires changes { AreChanges asked.day.now asked.changes.now }
    requires over { IsOver (length asked.day.now.trips) (compositions_of asked.day.now) region.old }
{
    let Asked {
        day,
        graphs,
        changes,
    } = asked;
    let claim = claim_of(answer, picks);
    if verdict_told(alloc, day, graphs, changes, region, &claim)? != "valid" {
        return Err(Fail::new("the answer is not proved"));
    }
    let other = Claim {
        head: claimed(answer.head, picks),
        branchings: answer.branchings.wrapping_add(1),
        tree: &answer.tree,
    };
    if verdict_told(alloc, day, graphs, changes, region, &other)? != "branchings differ" {
        return Err(Fail::new("another number of branchings is not found"));
    }
    Ok(())
}

/// What the checker finds of a claim over a region of a day under changes.
fn verdict_told(
    alloc: Global,
    day: &Instance,
    graphs: &Graphs,
    changes: &[Change],
    region: &mut Region,
    claim: &Claim<'_>,
) -> Result<&'static str, NoMemory>
    requires graphs { AreGraphs day.now graphs.now }
    requires changes { AreChanges day.now changes.now }
    requires over { IsOver (length day.now.trips) (compositions_of day.now) region.old }
    ensures { region.new ≡ region.old }
{
    match verdict_within(alloc, day, graphs, changes, region, claim)? {
        Verdict::Valid => Ok("valid"),
        Verdict::Invalid(reason) => Ok(reason_told(reason)),
    }
}

/// Why a claim is not proved, as a text.
fn reason_told(reason: Reason) -> &'static str {
    match reason {
        Reason::BranchingsDiffer { .. } => "branchings differ",
        _ => "another reason",
    }
}

/// The verdict on a claim over a region of a day under changes.
fn verdict_within(
    alloc: Global,
    day: &Instance,
    graphs: &Graphs,
    changes: &[Change],
    region: &mut Region,
    claim: &Claim<'_>,
) -> Result<Verdict, NoMemory>
    requires graphs { AreGraphs day.now graphs.now }
    requires changes { AreChanges day.now changes.now }
    requires over { IsOver (length day.now.trips) (compositions_of day.now) region.old }
    ensures { region.new ≡ region.old }
{
    let bounds = DayBounds::with_changes(alloc, day, graphs, changes)?;
    verdict_by(alloc, bounds, region, claim)
}

/// The verdict on a claim over a region, by a relaxation that the region is over.
fn verdict_by<R: Relaxation + Drop>(
    alloc: Global,
    mut bounds: R,
    region: &mut Region,
    claim: &Claim<'_>,
) -> Result<Verdict, NoMemory>
    requires over { IsOver (R.meanings (R.problem bounds)).trips (R.meanings (R.problem bounds)).catalogue region.old }
    ensures { region.new ≡ region.old }
{
    checked(alloc, &mut bounds, region, claim)
}

/// Picks of two trips.
pub(crate) fn two_picks(alloc: Global, compositions: [u32; 2]) -> Result<Picks, NoMemory> {
    let mut picks = Picks::new(alloc, 2)?;
    picks.set(TripNo(0), CompNo(compositions[0]));
    picks.set(TripNo(1), CompNo(compositions[1]));
    Ok(picks)
}
