//! Drawn days: what bounds, settling and slacks answer on three thousand days, two in three of them under changes,
//! against lists of all choices, slacks that are counted trip by trip, and plans of named units.

ghost use Rattle.timetable.specs.Picks.{ArePicks};
ghost use Rattle.transitions.specs.Edges.{AreGraphs};
ghost use Rattle.unit_duties.specs.Broken.{AreAdmissible};

use crate::asking::{Bound, bound_of, do_follow, settled, slacks_of};
use crate::changed::{bounds_under, cost_under, drawn_changes};
use crate::drawn_days::{Draws, drawn_day};
use crate::drawn_picks::drawn_picks;
use crate::drawn_questions::{drawn_multipliers, drawn_region};
use crate::link_rule::lead_on;
use crate::listing::{Choices, Listing, Question, choices_of, first_of, list};
use crate::plain_slacks::{are_slacks, plain_slacks};
use branch_tree::{BoundAnswer, Multipliers, Region, Relaxation, Settled, Weight};
use price_bound::Change;
use rail_base::TripNo;
use sample_days::may_run;
use std::alloc::Global;
use std::test::Fail;
use timetable::{Instance, Picks};
use transitions::Graphs;
use unit_duties::name_units;

/// A day with its edges, and the changes under which it is asked about.
#[derive(Clone, Copy)]
struct Asked<'a> {
    day: &'a Instance,
    graphs: &'a Graphs,
    changes: &'a [Change],
}

/// How many drawn bounds and picks came to what.
#[derive(Clone, Copy)]
struct Counts {
    /// Nothing is near the region.
    empty: u32,
    /// Some picks are near, and one choice alone has the least value; or several have it.
    alone: u32,
    tied: u32,
    /// Picks that do not follow.
    apart: u32,
    /// Picks that follow and are a solution.
    solutions: u32,
    /// Picks that follow and are broken at a hand-over, at a departure minute or at an end.
    missed: u32,
    short: u32,
    unbalanced: u32,
}

/// Whether a bound is that of the list of all choices of its region.
fn is_listed(
    alloc: Global,
    question: &Question<'_>,
    bound: &Bound,
    counts: &mut Counts,
) -> Result<bool, Fail> {
    let Some(count) = choices_of(question.day, question.region) else {
        return Ok(false);
    };
    let choices = Choices::of(alloc, question.day, question.region)?;
    let listing = list(alloc, question, &choices, count)?;
    add_listing(counts, &listing);
    let first = first_of(alloc, question.day, &choices, &listing)?;
    Ok(is_first(&listing, &first, bound))
}

/// Whether a bound is the least value of a list, and its picks are the first that have it; or nothing is near, and the
/// picks are as before.
fn is_first(listing: &Listing, first: &Picks, bound: &Bound) -> bool {
    match (listing.least, bound.answer) {
        (None, BoundAnswer::Empty) => have_second(&bound.best),
        (Some((least, _)), BoundAnswer::Value(value)) => {
            least == value.0 && are_same(first, &bound.best)
        }
        _ => false,
    }
}

/// Counts what a list of all choices shows.
fn add_listing(counts: &mut Counts, listing: &Listing) {
    let count = match (listing.least, listing.is_tied) {
        (None, _) => &mut counts.empty,
        (Some(_), false) => &mut counts.alone,
        (Some(_), true) => &mut counts.tied,
    };
    *count = count.wrapping_add(1);
}

/// Whether each trip still has composition 1.
fn have_second(picks: &Picks) -> bool {
    for trip in 0..picks.len() {
        if picks.get(TripNo(trip)).0 != 1 {
            return false;
        }
    }
    true
}

/// Whether two lists of picks are the same.
fn are_same(picks: &Picks, others: &Picks) -> bool {
    if picks.len() != others.len() {
        return false;
    }
    for trip in 0..picks.len() {
        if picks.get(TripNo(trip)) != others.get(TripNo(trip)) {
            return false;
        }
    }
    true
}

/// The index at which picks are broken, by all their slacks, and the sign: that of the first hand-over whose part is
/// missed, and of the part; else of the first departure minute at which a yard is short; else of the first end that is
/// not met.
fn broken_at(day: &Instance, slacks: &[i64], counts: &mut Counts) -> Option<(u32, i8)> {
    let ends = day
        .free_from()
        .wrapping_add(day.stations().wrapping_mul(day.types().len()));
    if let Some(index) = first(slacks, ends, day.indices(), false) {
        counts.missed = counts.missed.wrapping_add(1);
        return Some((index, 1));
    }
    if let Some(index) = first(slacks, 0, day.free_from(), false) {
        counts.short = counts.short.wrapping_add(1);
        return Some((index, 1));
    }
    if let Some(index) = first(slacks, day.free_from(), ends, true) {
        counts.unbalanced = counts.unbalanced.wrapping_add(1);
        let sign = if is_positive(slacks, index) { 1 } else { -1 };
        return Some((index, sign));
    }
    counts.solutions = counts.solutions.wrapping_add(1);
    None
}

/// The first of some indices at which a slack is positive, or not 0.
fn first(slacks: &[i64], from: u32, to: u32, or_negative: bool) -> Option<u32> {
    for index in from..to {
        if is_positive(slacks, index) || (or_negative && is_negative(slacks, index)) {
            return Some(index);
        }
    }
    None
}

/// Whether the slack at an index is positive.
fn is_positive(slacks: &[i64], index: u32) -> bool {
    match slacks.get(index as usize) {
        Some(slack) => *slack > 0,
        None => false,
    }
}

/// Whether the slack at an index is negative.
fn is_negative(slacks: &[i64], index: u32) -> bool {
    match slacks.get(index as usize) {
        Some(slack) => *slack < 0,
        None => false,
    }
}

/// What is found of picks that lead on without the relaxation: their slacks, what they cost under changes, and whether
/// units can be named for them.
#[derive(Drop)]
struct Plain {
    slacks: Vec<i64>,
    costs: i128,
    is_named: bool,
}

/// What is found of picks without the relaxation.
fn plainly(alloc: Global, asked: &Asked<'_>, picks: &Picks) -> Result<Plain, Fail>
    requires graphs { AreGraphs asked.now.day.now asked.now.graphs.now }
    requires picks { ArePicks asked.now.day.now picks.now }
    requires admissible { AreAdmissible asked.now.day.now picks.now }
{
    let slacks = plain_slacks(alloc, asked.day, picks)?;
    let costs = cost_under(asked.day, asked.changes, picks);
    let is_named = is_named(alloc, asked, picks);
    Ok(Plain {
        slacks,
        costs,
        is_named,
    })
}

/// Whether units can be named for picks.
fn is_named(alloc: Global, asked: &Asked<'_>, picks: &Picks) -> bool
    requires graphs { AreGraphs asked.now.day.now asked.now.graphs.now }
    requires picks { ArePicks asked.now.day.now picks.now }
    requires admissible { AreAdmissible asked.now.day.now picks.now }
{
    name_units(alloc, asked.day, asked.graphs, picks).is_ok()
}

/// Whether settling tells the cost of picks that units can be named for, and of others where they are broken.
fn is_settled(told: Settled, broken: Option<(u32, i8)>, plain: &Plain) -> bool {
    match (told, broken) {
        (Settled::Costs(value), None) => plain.is_named && value.0 == plain.costs,
        (Settled::Broken { index, sign }, Some(at)) => !plain.is_named && at == (index, sign),
        _ => false,
    }
}

/// Whether the relaxation tells of picks that lead on what is found without it.
fn is_told_plainly<R: Relaxation>(
    alloc: Global,
    day: &Instance,
    bounds: &mut R,
    picks: &Picks,
    plain: &Plain,
    counts: &mut Counts,
) -> Result<bool, Fail> {
    let slacks = plain.slacks.as_slice();
    let found = slacks_of(alloc, bounds, picks)?;
    let told = settled(bounds, picks)?;
    let broken = broken_at(day, slacks, counts);
    Ok(
        slacks.len() == day.indices() as usize
            && are_slacks(&found, slacks)
            && is_settled(told, broken, plain),
    )
}

/// Whether picks lead on by the rule of links.
fn do_lead_on(alloc: Global, day: &Instance, picks: &Picks) -> Result<bool, Fail> {
    let root = Region::root(alloc, day)?;
    Ok(lead_on(day, &root, picks))
}

/// Whether the relaxation tells of picks what the rule of links, plain slacks and the naming of units tell.
fn is_told<R: Relaxation>(
    alloc: Global,
    asked: &Asked<'_>,
    bounds: &mut R,
    picks: &Picks,
    counts: &mut Counts,
) -> Result<bool, Fail>
    requires { AreGraphs asked.now.day.now asked.now.graphs.now }
{
    if !may_run(asked.day, picks) {
        return Ok(true);
    }
    if !do_lead_on(alloc, asked.day, picks)? {
        counts.apart = counts.apart.wrapping_add(1);
        return Ok(!do_follow(bounds, picks));
    }
    let plain = plainly(alloc, asked, picks)?;
    is_told_plainly(alloc, asked.day, bounds, picks, &plain, counts)
}

/// Asks for a bound. The answer says whether all is as it is wanted.
fn ask<R: Relaxation>(
    alloc: Global,
    asked: &Asked<'_>,
    bounds: &mut R,
    question: &Question<'_>,
    counts: &mut Counts,
) -> Result<bool, Fail>
    requires { AreGraphs asked.now.day.now asked.now.graphs.now }
{
    let bound = bound_of(
        alloc,
        bounds,
        question.region,
        question.multipliers,
        question.weight,
    )?;
    if !is_listed(alloc, question, &bound, counts)? {
        return Ok(false);
    }
    is_told(alloc, asked, bounds, &bound.best, counts)
}

/// Asks for the bounds of a region under both weights. The answer says whether all is as it is wanted.
fn ask_both<R: Relaxation>(
    alloc: Global,
    asked: &Asked<'_>,
    bounds: &mut R,
    region: &Region,
    multipliers: &Multipliers,
    counts: &mut Counts,
) -> Result<bool, Fail>
    requires { AreGraphs asked.now.day.now asked.now.graphs.now }
{
    let mut question = Question {
        day: asked.day,
        changes: asked.changes,
        region,
        multipliers,
        weight: Weight::Cost,
    };
    if !ask(alloc, asked, bounds, &question, counts)? {
        return Ok(false);
    }
    question.weight = Weight::NoCost;
    ask(alloc, asked, bounds, &question, counts)
}

/// Draws multipliers and a region for a day with some picks, and asks for bounds. The answer says whether all is as it
/// is wanted.
fn ask_some<R: Relaxation>(
    alloc: Global,
    asked: &Asked<'_>,
    bounds: &mut R,
    picks: &Picks,
    draws: &mut Draws,
    counts: &mut Counts,
) -> Result<bool, Fail>
    requires { AreGraphs asked.now.day.now asked.now.graphs.now }
{
    let multipliers = drawn_multipliers(alloc, asked.day, draws)?;
    let Some(region) = drawn_region(alloc, asked.day, picks, draws)? else {
        return Ok(true);
    };
    ask_both(alloc, asked, bounds, &region, &multipliers, counts)
}

/// Draws picks for a day, asks what is told of them, and then for bounds. The answer says whether all is as it is
/// wanted.
fn ask_all<R: Relaxation>(
    alloc: Global,
    asked: &Asked<'_>,
    bounds: &mut R,
    draws: &mut Draws,
    counts: &mut Counts,
) -> Result<bool, Fail>
    requires { AreGraphs asked.now.day.now asked.now.graphs.now }
{
    let picks = drawn_picks(alloc, asked.day, asked.graphs, draws)?;
    if !is_told(alloc, asked, bounds, &picks, counts)? {
        return Ok(false);
    }
    ask_some(alloc, asked, bounds, &picks, draws, counts)
}

/// Asks of a day by its relaxation. The answer says whether all is as it is wanted.
fn ask_by<R: Relaxation + Drop>(
    alloc: Global,
    asked: &Asked<'_>,
    mut bounds: R,
    draws: &mut Draws,
    counts: &mut Counts,
) -> Result<bool, Fail>
    requires { AreGraphs asked.now.day.now asked.now.graphs.now }
{
    ask_all(alloc, asked, &mut bounds, draws, counts)
}

/// Makes the relaxation of a day, and asks of it. The answer says whether all is as it is wanted.
fn try_day(
    alloc: Global,
    asked: &Asked<'_>,
    draws: &mut Draws,
    counts: &mut Counts,
) -> Result<bool, Fail>
    requires { AreGraphs asked.now.day.now asked.now.graphs.now }
{
    let bounds = bounds_under(alloc, asked.day, asked.graphs, asked.changes)?;
    ask_by(alloc, asked, bounds, draws, counts)
}

/// Draws changes of a day with its edges, and asks of it. The answer says whether all is as it is wanted.
fn try_changes(
    alloc: Global,
    day: &Instance,
    graphs: &Graphs,
    draws: &mut Draws,
    counts: &mut Counts,
) -> Result<bool, Fail>
    requires { AreGraphs day.now graphs.now }
{
    let changes = drawn_changes(alloc, day, draws)?;
    let asked = Asked {
        day,
        graphs,
        changes: changes.as_slice(),
    };
    try_day(alloc, &asked, draws, counts)
}

/// Draws changes of a day, and asks of it. The answer says whether all is as it is wanted.
fn try_graphs(
    alloc: Global,
    day: &Instance,
    draws: &mut Draws,
    counts: &mut Counts,
) -> Result<bool, Fail> {
    let graphs = Graphs::build(alloc, day)?;
    try_changes(alloc, day, &graphs, draws, counts)
}

/// Draws a day and changes, and asks of it. The answer says whether all is as it is wanted.
fn draw(alloc: Global, draws: &mut Draws, counts: &mut Counts) -> Result<bool, Fail> {
    let Some(day) = drawn_day(alloc, draws)? else {
        return Ok(false);
    };
    try_graphs(alloc, &day, draws, counts)
}

/// Nothing counted.
fn none_yet() -> Counts {
    Counts {
        empty: 0,
        alone: 0,
        tied: 0,
        apart: 0,
        solutions: 0,
        missed: 0,
        short: 0,
        unbalanced: 0,
    }
}

/// Whether each count is over 200.
fn are_many(counts: &Counts) -> bool {
    let bounds = counts.empty.min(counts.alone).min(counts.tied);
    let broken = counts.missed.min(counts.short).min(counts.unbalanced);
    bounds > 200 && broken > 200 && counts.solutions > 200 && counts.apart > 200
}

/// Draws a thousand days from a seed. The answer is the number of the first at which something is not as it is wanted,
/// and a thousand where there is none such but the days were too much alike.
fn first_wrong(alloc: Global, seed: u32) -> Result<Option<u32>, Fail> {
    let mut draws = Draws::from_seed(seed);
    let mut counts = none_yet();
    for day in 0..1000 {
        if !draw(alloc, &mut draws, &mut counts)? {
            return Ok(Some(day));
        }
    }
    Ok(if are_many(&counts) { None } else { Some(1000) })
}

#[test]
fn thousand_days_from_seed_1(rt: HostRuntime) -> Result<(), Fail> {
    assert_eq!(rt; first_wrong(rt.alloc(), 1)?, None);
    Ok(())
}

#[test]
fn thousand_days_from_seed_2(rt: HostRuntime) -> Result<(), Fail> {
    assert_eq!(rt; first_wrong(rt.alloc(), 2)?, None);
    Ok(())
}

#[test]
fn thousand_days_from_seed_3(rt: HostRuntime) -> Result<(), Fail> {
    assert_eq!(rt; first_wrong(rt.alloc(), 3)?, None);
    Ok(())
}
