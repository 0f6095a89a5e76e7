//! Whether picks follow: each may run on its trip, and each link leads along its chain by an edge.

ghost use Rattle.std.specs.Prelude.{ℕ, ◌≡◌, ◌<◌, ◌↔◌, IsTrue, length, slice_get, Some};
ghost use Rattle.rules.specs.declared.records.Link.{Link};
ghost use Rattle.transitions.specs.Edges.{AreGraphs, IsAdmittedComp};
ghost use Rattle.price_bound.specs.FollowingPicks.{Follow, IsStep, pick_of};

use rail_base::{CompNo, LinkNo, TripNo};
use timetable::{Instance, Picks};
use transitions::Graphs;

/// Whether picks, one for each trip, follow; the graphs are those of the day.
pub(crate) fn follow(instance: &Instance, graphs: &Graphs, picks: &Picks) -> bool
    requires graphs { AreGraphs instance.now graphs.now }
    requires picks { length picks.now ≡ length instance.now.trips }
    ensures { IsTrue result ↔ Follow instance.now picks.now }
{
    all_run(instance, picks) && all_step(instance, graphs, picks)
}

/// Whether each pick may run on its trip.
fn all_run(instance: &Instance, picks: &Picks) -> bool
    requires { length picks.now ≡ length instance.now.trips }
    ensures { IsTrue result ↔ ((t : ℕ) → t < length instance.now.trips
        → IsAdmittedComp instance.now t (pick_of picks.now t)) }
{
    for trip in 0..instance.trips() {
        if !may_run(instance, TripNo(trip), picks.get(TripNo(trip))) {
            return false;
        }
    }
    true
}

/// Whether a number is that of a composition that may run on a trip.
fn may_run(instance: &Instance, trip: TripNo, comp: CompNo) -> bool
    requires { trip < length instance.now.trips }
    ensures { IsTrue result ↔ IsAdmittedComp instance.now trip comp }
{
    comp.0 < instance.catalogue().len() && instance.admits(trip, comp)
}

/// Whether each link leads along its chain by an edge.
fn all_step(instance: &Instance, graphs: &Graphs, picks: &Picks) -> bool
    requires graphs { AreGraphs instance.now graphs.now }
    requires picks { length picks.now ≡ length instance.now.trips }
    ensures { IsTrue result ↔ ((l : ℕ) (link : Link) → slice_get instance.now.links l ≡ Some link →
        IsStep instance.now picks.now l link) }
{
    for link in 0..instance.links() {
        if !is_step(instance, graphs, picks, LinkNo(link)) {
            return false;
        }
    }
    true
}

/// Whether a link, which is below the number of links, leads along its chain by an edge.
fn is_step(instance: &Instance, graphs: &Graphs, picks: &Picks, link: LinkNo) -> bool
    requires graphs { AreGraphs instance.now graphs.now }
    requires picks { length picks.now ≡ length instance.now.trips }
    requires link { link < length instance.now.links }
    ensures { (at : Link) → slice_get instance.now.links link ≡ Some at →
        IsTrue result ↔ IsStep instance.now picks.now link at }
{
    let kind = &instance.link(link).kind;
    let from = picks.get(kind.leads_from());
    let to = picks.get(kind.leads_to());
    graphs.find(link, from, to).is_some()
}
