//! The parts of hand-overs, and the second trips that have another composition than the part.

ghost use Rattle.std.specs.Prelude.{◌≡◌, ◌<◌, length, MatchOption};
ghost use Rattle.timetable.specs.Accepted.{IsSoundDay};
ghost use Rattle.timetable.specs.Handovers.{handovers_of};
ghost use Rattle.transitions.specs.Edges.{AreGraphs};
ghost use Rattle.price_bound.specs.FollowingPicks.{Follow};
ghost use Rattle.price_bound.specs.Parts.{IsFirstMissed, IsMissed, IsPartAt, NoneMissed, second_pick};

use rail_base::CompNo;
use timetable::{Instance, Picks, Place};
use transitions::Graphs;

/// The first hand-over whose second trip has another composition than the part, and the part.
pub(crate) fn first_missed(instance: &Instance, graphs: &Graphs, picks: &Picks) -> Option<Place>
    requires accepted { IsSoundDay instance.now }
    requires graphs { AreGraphs instance.now graphs.now }
    requires follow { Follow instance.now picks.now }
    ensures { MatchOption result (NoneMissed instance.now picks.now) (IsFirstMissed instance.now picks.now) }
{
    for handover in 0..instance.handovers() {
        if let Some(comp) = missed_at(instance, graphs, picks, handover) {
            return Some(Place::Sigma { handover, comp });
        }
    }
    None
}

/// The part of a hand-over, where the second trip has another composition.
fn missed_at(instance: &Instance, graphs: &Graphs, picks: &Picks, handover: u32) -> Option<CompNo>
    requires accepted { IsSoundDay instance.now }
    requires graphs { AreGraphs instance.now graphs.now }
    requires follow { Follow instance.now picks.now }
    requires handover { handover < length (handovers_of instance.now) }
    ensures { IsMissed instance.now picks.now handover result }
{
    let part = part_at(instance, graphs, picks, handover);
    if second_at(instance, picks, handover) == part {
        None
    } else {
        Some(part)
    }
}

/// The part of a hand-over: the composition that a join or a split leaves for its second trip.
pub(crate) fn part_at(instance: &Instance, graphs: &Graphs, picks: &Picks, handover: u32) -> CompNo
    requires accepted { IsSoundDay instance.now }
    requires graphs { AreGraphs instance.now graphs.now }
    requires follow { Follow instance.now picks.now }
    requires handover { handover < length (handovers_of instance.now) }
    ensures { IsPartAt instance.now picks.now handover result }
{
    let link = instance.handover(handover).link;
    let kind = &instance.link(link).kind;
    let from = picks.get(kind.leads_from());
    let to = picks.get(kind.leads_to());
    let Some(edge) = graphs.find(link, from, to) else {
        unreachable!()
    };
    let Some(part) = edge.part else {
        unreachable!()
    };
    part
}

/// The composition of the second trip of a hand-over.
pub(crate) fn second_at(instance: &Instance, picks: &Picks, handover: u32) -> CompNo
    requires picks { length picks.now ≡ length instance.now.trips }
    requires handover { handover < length (handovers_of instance.now) }
    ensures { result ≡ second_pick instance.now picks.now handover }
{
    picks.get(instance.handover(handover).second)
}
