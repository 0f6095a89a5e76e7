//! The rules of the links, of the compositions that are picked.

ghost use Rattle.std.specs.Prelude.{◌≡◌, ◌<◌, length, Some, slice_get, option_map, IfSome, IfNone};
ghost use Rattle.rules.specs.declared.records.Link.{Link};
ghost use Rattle.timetable.specs.Handovers.{second_of};
ghost use Rattle.timetable.specs.LinkRows.{NamesBelow};
ghost use Rattle.timetable.specs.Links.{itself, link_holds};
ghost use Rattle.timetable.specs.Picks.{ArePicks, picked};
ghost use Rattle.transitions.specs.Edges.{AreGraphs};
ghost use Rattle.unit_duties.specs.Broken.{pick_of, AreAdmissible, EachHolds, IsFirstBroken};

use rail_base::{CompNo, LinkNo};
use timetable::{Instance, Link, Picks};
use transitions::Graphs;

/// The first link whose rule is broken by the types of the picked compositions.
pub(crate) fn first_broken(instance: &Instance, graphs: &Graphs, picks: &Picks) -> Option<LinkNo>
    requires graphs { AreGraphs instance.now graphs.now }
    requires picks { ArePicks instance.now picks.now }
    requires admissible { AreAdmissible instance.now picks.now }
    ensures none { IfNone result (EachHolds instance.now (picked instance.now picks.now)) }
    ensures some { IfSome result (IsFirstBroken instance.now (picked instance.now picks.now)) }
{
    for number in 0..instance.links() {
        if !holds(instance, graphs, picks, LinkNo(number)) {
            return Some(LinkNo(number));
        }
    }
    None
}

/// Whether the rule of a link holds of the types of the picked compositions: an edge goes from that of the first
/// arriving trip to that of the first departing one, and its part is that of the second train.
fn holds(instance: &Instance, graphs: &Graphs, picks: &Picks, number: LinkNo) -> bool
    requires graphs { AreGraphs instance.now graphs.now }
    requires picks { ArePicks instance.now picks.now }
    requires admissible { AreAdmissible instance.now picks.now }
    requires number { number < length instance.now.links }
    ensures { (link : Link) → slice_get instance.now.links number ≡ Some link →
        result ≡ link_holds itself link (picked instance.now picks.now) }
{
    let link = instance.link(number);
    let from = picks.get(link.kind.leads_from());
    let to = picks.get(link.kind.leads_to());
    match graphs.find(number, from, to) {
        Some(edge) => edge.part == second_pick(picks, link),
        None => false,
    }
}

/// The composition that is picked for the second train of a join or a split; a turn has none.
fn second_pick(picks: &Picks, link: &Link) -> Option<CompNo>
    requires { NamesBelow (length picks.now) link.now.kind }
    ensures { result ≡ option_map (pick_of picks.now) (second_of link.now.kind) }
{
    match link.kind.second() {
        Some(trip) => Some(picks.get(trip)),
        None => None,
    }
}
