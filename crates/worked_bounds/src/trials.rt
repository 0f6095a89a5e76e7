//! Searches of days, with the advisors that a test gives them.

ghost use Rattle.std.specs.Prelude.{◌≤◌, ◌^◌, All};
ghost use Rattle.rail_base.specs.declared.limits.TheConstants.{MAX_BRANCHINGS, MAX_ROUNDS};
ghost use Rattle.branch_tree.specs.Regions.{IsOver};
ghost use Rattle.transitions.specs.Edges.{AreGraphs};

use crate::scripts::{Call, Scripted};
use crate::telling::{write_asked, write_found};
use advisors::Advisor;
use branch_tree::{Region, Relaxation};
use price_bound::DayBounds;
use rail_base::NoMemory;
use rail_base::limits::{MAX_BRANCHINGS, MAX_ROUNDS};
use sample_days::{Texts, day_of};
use search::{Found, solve};
use std::alloc::{AllocError, Global};
use std::process::Abort;
use std::test::Fail;
use timetable::Instance;
use transitions::Graphs;

/// A search of a day, and what comes of it.
#[derive(Clone, Copy)]
pub(crate) struct Search {
    /// What it shows.
    pub(crate) about: &'static str,
    pub(crate) texts: Texts<'static>,
    /// How many branchings are granted.
    pub(crate) grant: u32,
    /// How many rounds of advice there are.
    pub(crate) rounds: u8,
    /// The advisors, in the order in which they are asked.
    pub(crate) scripts: &'static [&'static [Call]],
    /// What is found, and then of each advisor how often it was asked, and whether it has quit.
    pub(crate) told: &'static str,
}

/// Asserts what comes of each of these searches.
pub(crate) fn expect_all(rt: &impl Abort, alloc: Global, searches: &[Search]) -> Result<(), Fail> {
    for search in searches {
        expect(rt, alloc, search)?;
    }
    Ok(())
}

/// Asserts what comes of a search.
pub(crate) fn expect(rt: &impl Abort, alloc: Global, search: &Search) -> Result<(), Fail> {
    let text = told(alloc, search)?;
    assert!(rt; text.as_str() == search.told, "{}: {text}", search.about);
    Ok(())
}

/// What comes of a search, which has two advisors at most.
fn told(alloc: Global, search: &Search) -> Result<String, Fail> {
    match search.scripts {
        [] => told_of_none(alloc, search),
        [script] => told_of_one(alloc, search, *script),
        [first, second] => told_of_two(alloc, search, *first, *second),
        _ => Err(Fail::new("there are more than two advisors")),
    }
}

/// What comes of a search without advisors.
fn told_of_none(alloc: Global, search: &Search) -> Result<String, Fail> {
    let mut advisors: Vec<Box<dyn Advisor>> = Vec::new(alloc);
    course_of(alloc, search, &mut advisors)
}

/// What comes of a search with one advisor.
fn told_of_one(alloc: Global, search: &Search, script: &'static [Call]) -> Result<String, Fail> {
    let mut advisors: Vec<Box<dyn Advisor>> = Vec::new(alloc);
    advisors.push(Box::new(alloc, Scripted::by(alloc, script))?)?;
    course_of(alloc, search, &mut advisors)
}

/// What comes of a search with two advisors, the first of which is asked first.
fn told_of_two(
    alloc: Global,
    search: &Search,
    first: &'static [Call],
    second: &'static [Call],
) -> Result<String, Fail> {
    let mut advisors: Vec<Box<dyn Advisor>> = Vec::new(alloc);
    advisors.push(Box::new(alloc, Scripted::by(alloc, first))?)?;
    advisors.push(Box::new(alloc, Scripted::by(alloc, second))?)?;
    course_of(alloc, search, &mut advisors)
}

/// What comes of a search with these advisors.
fn course_of(
    alloc: Global,
    search: &Search,
    advisors: &mut Vec<Box<dyn Advisor>>,
) -> Result<String, Fail>
    requires asked { All (λ advisor. asked advisor ≤ 2 ^ 63) advisors.old.items }
{
    let day = day_of(alloc, &search.texts)?;
    course_on(alloc, &day, search, advisors)
}

/// What comes of a search with these advisors on its day.
fn course_on(
    alloc: Global,
    day: &Instance,
    search: &Search,
    advisors: &mut Vec<Box<dyn Advisor>>,
) -> Result<String, Fail>
    requires asked { All (λ advisor. asked advisor ≤ 2 ^ 63) advisors.old.items }
{
    let graphs = Graphs::build(alloc, day)?;
    course_along(alloc, day, &graphs, search, advisors)
}

/// What comes of a search with these advisors along the edges of its day.
fn course_along(
    alloc: Global,
    day: &Instance,
    graphs: &Graphs,
    search: &Search,
    advisors: &mut Vec<Box<dyn Advisor>>,
) -> Result<String, Fail>
    requires graphs { AreGraphs day.now graphs.now }
    requires asked { All (λ advisor. asked advisor ≤ 2 ^ 63) advisors.old.items }
{
    let found = found_on(alloc, day, graphs, search.grant, search.rounds, advisors)?;
    text_of(alloc, &found, advisors.as_slice())
}

/// What was found, and of each advisor how often it was asked, and whether it has quit.
fn text_of(alloc: Global, found: &Found, advisors: &[Box<dyn Advisor>]) -> Result<String, Fail> {
    let mut text = String::new(alloc);
    write_course(&mut text, found, advisors)?;
    Ok(text)
}

/// Writes that.
fn write_course(
    text: &mut String,
    found: &Found,
    advisors: &[Box<dyn Advisor>],
) -> Result<(), AllocError> {
    write_found(text, found)?;
    write_asked(text, advisors)
}

/// What is found on a day. So much as a test never grants is refused as want of memory is.
fn found_on(
    alloc: Global,
    day: &Instance,
    graphs: &Graphs,
    grant: u32,
    rounds: u8,
    advisors: &mut Vec<Box<dyn Advisor>>,
) -> Result<Found, NoMemory>
    requires graphs { AreGraphs day.now graphs.now }
    requires asked { All (λ advisor. asked advisor ≤ 2 ^ 63) advisors.old.items }
{
    if grant > MAX_BRANCHINGS || u32::from(rounds) > MAX_ROUNDS {
        return Err(NoMemory);
    }
    let root = Region::root(alloc, day)?;
    let bounds = DayBounds::new(alloc, day, graphs)?;
    found_by(alloc, bounds, &root, grant, rounds, advisors)
}

/// What is found in a root by a relaxation that it is over.
fn found_by<R: Relaxation + Drop>(
    alloc: Global,
    mut bounds: R,
    root: &Region,
    grant: u32,
    rounds: u8,
    advisors: &mut Vec<Box<dyn Advisor>>,
) -> Result<Found, NoMemory>
    requires over { IsOver (R.meanings (R.problem bounds)).trips (R.meanings (R.problem bounds)).catalogue root.now }
    requires grant { grant ≤ MAX_BRANCHINGS }
    requires rounds { rounds ≤ MAX_ROUNDS }
    requires asked { All (λ advisor. asked advisor ≤ 2 ^ 63) advisors.old.items }
{
    solve(alloc, &mut bounds, root, grant, rounds, advisors)
}
