//! Drawn days: what the naming of units answers, for more than a thousand picks, is what the edges of the links, the
//! counts of the yards and the simulated day say.

ghost use Rattle.std.specs.Prelude.{◌<◌, length};
ghost use Rattle.timetable.specs.Picks.{ArePicks};
ghost use Rattle.transitions.specs.Edges.{AreGraphs};
ghost use Rattle.unit_duties.specs.Broken.{AreAdmissible};

use crate::drawn_days::{Draws, drawn_day};
use crate::drawn_picks::{drawn_picks, pick_of};
use day_simulator::simulate;
use inventory::{Ledger, StockFault};
use rail_base::{CompNo, LinkNo, TripNo};
use sample_days::may_run;
use std::alloc::Global;
use std::test::Fail;
use timetable::{Instance, Link, NamedPlan, Picks};
use transitions::{Edge, Graphs};
use unit_duties::{DutyRefusal, name_units};

/// How many of the drawn picks came to what.
#[derive(Clone, Copy)]
struct Counts {
    /// There is a plan, which runs with the picked types.
    plans: u32,
    /// A yard is short of units.
    shorts: u32,
    /// A yard ends with another number of units than is wanted.
    balances: u32,
    /// A link is broken.
    broken_links: u32,
    /// A link is broken, and the yards have a fault too.
    both: u32,
}

/// Counts what the picks of a day come to. The answer says whether it is as the edges, the yards and the simulated day
/// have it.
fn count(
    alloc: Global,
    day: &Instance,
    graphs: &Graphs,
    picks: &Picks,
    counts: &mut Counts,
) -> Result<bool, Fail>
    requires graphs { AreGraphs day.now graphs.now }
    requires picks { ArePicks day.now picks.now }
    requires admissible { AreAdmissible day.now picks.now }
{
    let broken = first_broken(day, graphs, picks);
    let fault = first_fault(alloc, day, picks)?;
    add(counts, &broken, &fault);
    let wanted = refusal_for(&broken, &fault);
    match name_units(alloc, day, graphs, picks) {
        Ok(plan) => {
            let runs = simulate(alloc, day, &plan).is_ok();
            Ok(wanted.is_none() && runs && has_types(day, &plan, picks))
        }
        Err(refusal) => Ok(is_wanted(&wanted, refusal)),
    }
}

/// Counts a first broken link and a first fault of the yards.
fn add(counts: &mut Counts, broken: &Option<LinkNo>, fault: &Option<StockFault>) {
    let count = match (broken, fault) {
        (Some(_), Some(_)) => &mut counts.both,
        (Some(_), None) => &mut counts.broken_links,
        (None, Some(StockFault::Short { .. })) => &mut counts.shorts,
        (None, Some(StockFault::Balance { .. })) => &mut counts.balances,
        (None, None) => &mut counts.plans,
    };
    *count = count.wrapping_add(1);
}

/// The refusal for a first broken link and a first fault of the yards: the link comes first.
fn refusal_for(broken: &Option<LinkNo>, fault: &Option<StockFault>) -> Option<DutyRefusal> {
    match (broken, fault) {
        (Some(link), _) => Some(DutyRefusal::LinkBroken(*link)),
        (None, Some(found)) => Some(DutyRefusal::Stock(*found)),
        (None, None) => None,
    }
}

/// Whether a refusal is the wanted one.
fn is_wanted(wanted: &Option<DutyRefusal>, refusal: DutyRefusal) -> bool {
    match wanted {
        Some(found) => *found == refusal,
        None => false,
    }
}

/// Draws picks for a day, and counts what they come to where they may run. The answer says whether all is as it is
/// wanted.
fn draw_picks(
    alloc: Global,
    day: &Instance,
    graphs: &Graphs,
    draws: &mut Draws,
    counts: &mut Counts,
) -> Result<bool, Fail>
    requires { AreGraphs day.now graphs.now }
{
    let picks = drawn_picks(alloc, day, graphs, draws)?;
    if !may_run(day, &picks) {
        return Ok(true);
    }
    count(alloc, day, graphs, &picks, counts)
}

/// Draws some picks for a day, one after another. The answer says whether all is as it is wanted.
fn draw_some(
    alloc: Global,
    day: &Instance,
    graphs: &Graphs,
    draws: &mut Draws,
    counts: &mut Counts,
) -> Result<bool, Fail>
    requires { AreGraphs day.now graphs.now }
{
    for _ in 0..25 {
        if !draw_picks(alloc, day, graphs, draws, counts)? {
            return Ok(false);
        }
    }
    Ok(true)
}

/// Draws some picks for a day, and counts what they come to. The answer says whether all is as it is wanted.
fn draw_for(
    alloc: Global,
    day: &Instance,
    draws: &mut Draws,
    counts: &mut Counts,
) -> Result<bool, Fail> {
    let graphs = Graphs::build(alloc, day)?;
    draw_some(alloc, day, &graphs, draws, counts)
}

/// Draws a day and some picks for it, and counts what they come to. The answer says whether all is as it is wanted.
fn draw(alloc: Global, draws: &mut Draws, counts: &mut Counts) -> Result<bool, Fail> {
    let Some(day) = drawn_day(alloc, draws)? else {
        return Ok(false);
    };
    draw_for(alloc, &day, draws, counts)
}

#[test]
fn answers_for_drawn_picks(rt: HostRuntime) -> Result<(), Fail> {
    let mut draws = Draws::from_seed(1);
    let mut counts = Counts {
        plans: 0,
        shorts: 0,
        balances: 0,
        broken_links: 0,
        both: 0,
    };
    for day in 0..60 {
        assert!(rt; draw(rt.alloc(), &mut draws, &mut counts)?, "day {day}");
    }
    assert!(rt; counts.plans > 100 && counts.shorts > 100 && counts.balances > 100);
    assert!(rt; counts.broken_links > 10 && counts.both > 100);
    Ok(())
}

/// The first link that no edge goes along from picks to picks.
fn first_broken(day: &Instance, graphs: &Graphs, picks: &Picks) -> Option<LinkNo>
    requires { AreGraphs day.now graphs.now }
{
    for link in 0..day.links() {
        let edges = graphs.edges(LinkNo(link));
        if !has_edge(day.link(LinkNo(link)), edges, picks) {
            return Some(LinkNo(link));
        }
    }
    None
}

/// Whether one of the edges of a link goes from what is picked for the trips that arrive to what is picked for those
/// that depart.
fn has_edge(link: &Link, edges: &[Edge], picks: &Picks) -> bool {
    let from = pick_of(picks, link.kind.leads_from());
    let to = pick_of(picks, link.kind.leads_to());
    let part = match link.kind.second() {
        Some(trip) => Some(pick_of(picks, trip)),
        None => None,
    };
    for edge in edges {
        if edge.from == from && edge.to == to && edge.part == part {
            return true;
        }
    }
    false
}

/// The first fault of the yards.
pub(crate) fn first_fault(
    alloc: Global,
    day: &Instance,
    picks: &Picks,
) -> Result<Option<StockFault>, Fail>
    requires { ArePicks day.now picks.now }
{
    let mut ledger = Ledger::new(alloc, day)?;
    ledger.load(picks);
    Ok(ledger.first_fault())
}

/// Whether the trips of a plan have the picked types.
fn has_types(day: &Instance, plan: &NamedPlan, picks: &Picks) -> bool {
    for trip in 0..plan.trips() {
        if !are_of_types(day, plan, TripNo(trip), pick_of(picks, TripNo(trip))) {
            return false;
        }
    }
    plan.trips() == day.trips()
}

/// Whether a trip of a plan has units of the types of a composition, front to rear.
fn are_of_types(day: &Instance, plan: &NamedPlan, trip: TripNo, comp: CompNo) -> bool
    requires { trip < length plan.now }
{
    if comp.0 >= day.catalogue().len() {
        return false;
    }
    let types = day.catalogue().get(comp).units();
    let units = plan.units(trip);
    if types.len() != units.len() {
        return false;
    }
    for place in 0..types.len() {
        let unit = units[place];
        if unit.0 >= day.units() || day.unit(unit).unit_type != types[place] {
            return false;
        }
    }
    true
}
