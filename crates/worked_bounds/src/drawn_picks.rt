//! Picks that are drawn for a day.

ghost use Rattle.std.specs.Prelude.{◌≡◌, length, IfOk, get_or};
ghost use Rattle.transitions.specs.Edges.{AreGraphs};

use crate::drawn_days::Draws;
use rail_base::{CompNo, LinkNo, TripNo};
use std::alloc::Global;
use std::test::Fail;
use timetable::{Instance, Link, Picks};
use transitions::{Edge, Graphs};

/// Picks that follow the links; every other time but for one link in six, where what that leads to has a composition by
/// chance. Every other time the composition of one trip is turned round after that.
pub(crate) fn drawn_picks(
    alloc: Global,
    day: &Instance,
    graphs: &Graphs,
    draws: &mut Draws,
) -> Result<Picks, Fail>
    requires { AreGraphs day.now graphs.now }
    ensures { IfOk result (λ picks. length picks ≡ length day.now.trips) }
{
    let mut picks = Picks::new(alloc, day.trips())?;
    for trip in 0..day.trips() {
        set_pick(&mut picks, TripNo(trip), drawn_composition(day, draws));
    }
    let follows_all = draws.below(2) == 0;
    for link in 0..day.links() {
        let edges = graphs.edges(LinkNo(link));
        if follows_all || draws.below(6) != 0 {
            follow(day.link(LinkNo(link)), edges, draws, &mut picks);
        }
    }
    if draws.below(2) == 0 {
        turn_round(day, draws, &mut picks);
    }
    Ok(picks)
}

/// A composition of the day by chance, and the first number where it has none.
fn drawn_composition(day: &Instance, draws: &mut Draws) -> CompNo {
    let compositions = day.catalogue().len();
    if compositions == 0 {
        return CompNo(0);
    }
    CompNo(draws.below(compositions))
}

/// Gives the trips that depart by a link compositions by one of its edges from what is picked for those that arrive,
/// where there is one.
fn follow(link: &Link, edges: &[Edge], draws: &mut Draws, picks: &mut Picks)
    ensures { length picks.new ≡ length picks.old }
{
    let Some(edge) = drawn_edge(link, edges, draws, picks) else {
        return;
    };
    let trips = link.kind.departing();
    set_pick(picks, trips.first, edge.to);
    if let (Some(second), Some(part)) = (trips.second, edge.part) {
        set_pick(picks, second, part);
    }
}

/// One of the edges that begin with what is picked for the trips that a link leads from.
fn drawn_edge(link: &Link, edges: &[Edge], draws: &mut Draws, picks: &Picks) -> Option<Edge> {
    let mut drawn = None;
    for edge in edges {
        if begins(link, edge, picks) && (drawn.is_none() || draws.below(3) == 0) {
            drawn = Some(*edge);
        }
    }
    drawn
}

/// Gives one trip the composition that it has in the other order, if it is there. The counts of units stay as they are.
fn turn_round(day: &Instance, draws: &mut Draws, picks: &mut Picks)
    ensures { length picks.new ≡ length picks.old }
{
    let trip = TripNo(draws.below(6));
    let comp = pick_of(picks, trip);
    if comp.0 >= day.catalogue().len() {
        return;
    }
    let reversed = day.catalogue().get(comp).reversed();
    if let Some(other) = day.catalogue().find(&reversed) {
        set_pick(picks, trip, other);
    }
}

/// Whether an edge of a link begins with what is picked for the trips that the link leads from.
fn begins(link: &Link, edge: &Edge, picks: &Picks) -> bool {
    let trips = link.kind.arriving();
    if edge.from != pick_of(picks, trips.first) {
        return false;
    }
    match trips.second {
        Some(second) => edge.part == Some(pick_of(picks, second)),
        None => true,
    }
}

/// What is picked for a trip, and composition 0 where there is no such trip.
pub(crate) fn pick_of(picks: &Picks, trip: TripNo) -> CompNo
    ensures { result ≡ get_or picks.now trip 0 }
{
    if trip.0 >= picks.len() {
        return CompNo(0);
    }
    picks.get(trip)
}

/// Gives a trip a composition, where there is such a trip.
fn set_pick(picks: &mut Picks, trip: TripNo, comp: CompNo)
    ensures { length picks.new ≡ length picks.old }
{
    if trip.0 < picks.len() {
        picks.set(trip, comp);
    }
}
