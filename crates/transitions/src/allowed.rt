//! The edge that a link allows from one composition to another.

ghost use Rattle.std.specs.Prelude.{ℕ, List, ◌≡◌, ◌<◌, ◌↔◌, Bool, IsTrue, Some, length, IfOk};
ghost use Rattle.rules.specs.declared.records.End.{End};
ghost use Rattle.rules.specs.declared.records.LinkKind.TheVariants.{Turn};
ghost use Rattle.timetable.specs.Day.{Day};
ghost use Rattle.timetable.specs.Compositions.{compositions_of, composition_at};
ghost use Rattle.timetable.specs.LinkRows.{NamesBelow};
ghost use Rattle.transitions.specs.declared.edge.Edge.{Edge};
ghost use Rattle.transitions.specs.declared.edge.Shunt.TheVariants.{Keep};
ghost use Rattle.transitions.specs.Edges.{IsAdmittedComp, IsTurnEdge, IsJoinEdge, IsSplitEdge, IsKindEdge};
ghost use Rattle.transitions.specs.Between.{IsBetween};
ghost use Rattle.transitions.specs.Pairs.{runs_on, AreAdmitted, IsKnown};

use crate::edge::{Edge, Shunt};
use crate::pairs::Pair;
use crate::turns::{rest_after, turn_shunt, turned};
use compositions::Composition;
use rail_base::{CompNo, NoMemory, TripNo};
use std::alloc::Global;
use timetable::{Instance, Link, LinkKind};

/// For each composition of the catalogue, by number, whether it may run on each of a link's trips.
#[derive(Drop)]
pub(crate) struct Admitted {
    /// On the first arriving trip, the train in front.
    pub(crate) arriving: Vec<bool>,
    /// On the first departing trip, the train in front.
    pub(crate) departing: Vec<bool>,
    /// On the second arriving trip of a join or the second departing trip of a split; nothing at a turn.
    pub(crate) second: Vec<bool>,
}

/// Which compositions may run on the trips of a link, which are trips of the day.
pub(crate) fn admitted_on(
    alloc: Global,
    instance: &Instance,
    kind: LinkKind,
) -> Result<Admitted, NoMemory>
    requires { NamesBelow (length instance.now.trips) kind }
    ensures { IfOk result (λ admitted. AreAdmitted instance.now kind admitted) }
{
    let second = match kind.second() {
        Some(trip) => runs_on(alloc, instance, trip)?,
        None => Vec::new(alloc),
    };
    Ok(Admitted {
        arriving: runs_on(alloc, instance, kind.leads_from())?,
        departing: runs_on(alloc, instance, kind.leads_to())?,
        second,
    })
}

/// For each composition whether it may run on the trip.
fn runs_on(alloc: Global, instance: &Instance, trip: TripNo) -> Result<Vec<bool>, NoMemory>
    requires { trip < length instance.now.trips }
    ensures { IfOk result (λ runs. runs.items ≡ runs_on instance.now trip) }
{
    let mut runs = Vec::new(alloc);
    for comp in 0..instance.catalogue().len() {
        runs.push(instance.admits(trip, CompNo(comp)))?;
    }
    Ok(runs)
}

/// Whether the composition of a number may run on the trip of which this is said.
pub(crate) fn may_run(runs: &[bool], comp: CompNo) -> bool
    requires { comp < length runs.now }
    ensures { (day : Day) (t : ℕ) → runs.now ≡ runs_on day t → IsTrue result ↔ IsAdmittedComp day t comp }
{
    runs[comp.place()]
}

/// The edge of a link between the compositions of a pair, which are in the catalogue, or nothing where the link does
/// not allow it.
pub(crate) fn edge_between(
    instance: &Instance,
    link: &Link,
    admitted: &Admitted,
    pair: &Pair,
) -> Option<Edge>
    requires admitted { AreAdmitted instance.now link.now.kind admitted.now }
    requires pair { IsKnown instance.now pair.now }
    ensures { (edge : Edge) → (result ≡ Some edge)
        ↔ (IsKindEdge instance.now link.now.kind link.now.reverse edge × IsBetween pair.now.from pair.now.to edge) }
{
    if !may_run(&admitted.arriving, pair.from) || !may_run(&admitted.departing, pair.to) {
        return None;
    }
    let (from, to) = (pair.from, pair.to);
    let second = admitted.second.as_slice();
    match link.kind {
        LinkKind::Turn { .. } => turn_edge(instance, link, from, to),
        LinkKind::Join { .. } => join_edge(instance, link.reverse, second, from, to),
        LinkKind::Split { .. } => split_edge(instance, link.reverse, second, from, to),
    }
}

/// The edge of a turn from one composition to another, which may run on its trips.
fn turn_edge(instance: &Instance, link: &Link, from: CompNo, to: CompNo) -> Option<Edge>
    requires from { from < length (compositions_of instance.now) }
    requires to { to < length (compositions_of instance.now) }
    ensures { (a b : ℕ) (uncouple couple : End) (exchange : Bool) → link.now.kind ≡ Turn a b uncouple couple exchange
        → IsAdmittedComp instance.now a from → IsAdmittedComp instance.now b to → (edge : Edge) → (result ≡ Some edge)
        ↔ (IsTurnEdge instance.now link.now.reverse a b uncouple couple exchange edge × IsBetween from to edge) }
{
    let catalogue = instance.catalogue();
    let arriving = turned(link.reverse, catalogue.get(from));
    let departing = catalogue.get(to);
    let shunt = turn_shunt(link.kind, arriving.units(), departing.units())?;
    Some(Edge {
        from,
        to,
        shunt,
        part: None,
    })
}

/// The edge of a join from the first train's composition to the joined one, which may run on their trips. The part is
/// the composition of the second train.
fn join_edge(
    instance: &Instance,
    reversed: bool,
    second: &[bool],
    from: CompNo,
    to: CompNo,
) -> Option<Edge>
    requires second { length second.now ≡ length (compositions_of instance.now) }
    requires from { from < length (compositions_of instance.now) }
    requires to { to < length (compositions_of instance.now) }
    ensures { (a a2 b : ℕ) → second.now ≡ runs_on instance.now a2 → IsAdmittedComp instance.now a from
        → IsAdmittedComp instance.now b to → (edge : Edge)
        → (result ≡ Some edge) ↔ (IsJoinEdge instance.now reversed a a2 b edge × IsBetween from to edge) }
{
    let catalogue = instance.catalogue();
    let arriving = turned(reversed, catalogue.get(from));
    let behind = rest_after(arriving.units(), catalogue.get(to).units())?;
    let part = number_on(instance, second, &turned(reversed, &behind))?;
    Some(keeping_edge(from, to, part))
}

/// The edge of a split from the arriving composition to the first train's, which may run on their trips. The part is
/// the composition of the second train.
fn split_edge(
    instance: &Instance,
    reversed: bool,
    second: &[bool],
    from: CompNo,
    to: CompNo,
) -> Option<Edge>
    requires second { length second.now ≡ length (compositions_of instance.now) }
    requires from { from < length (compositions_of instance.now) }
    requires to { to < length (compositions_of instance.now) }
    ensures { (a b b2 : ℕ) → second.now ≡ runs_on instance.now b2 → IsAdmittedComp instance.now a from
        → IsAdmittedComp instance.now b to → (edge : Edge)
        → (result ≡ Some edge) ↔ (IsSplitEdge instance.now reversed a b b2 edge × IsBetween from to edge) }
{
    let catalogue = instance.catalogue();
    let arriving = turned(reversed, catalogue.get(from));
    let behind = rest_after(catalogue.get(to).units(), arriving.units())?;
    let part = number_on(instance, second, &behind)?;
    Some(keeping_edge(from, to, part))
}

/// An edge of a join or a split.
fn keeping_edge(from: CompNo, to: CompNo, part: CompNo) -> Edge
    ensures { result ≡ record { from = from; to = to; shunt = Keep; part = Some part } }
{
    Edge {
        from,
        to,
        shunt: Shunt::Keep,
        part: Some(part),
    }
}

/// The number of a composition where it may run on the trip of which this is said, or nothing where it may not.
fn number_on(instance: &Instance, runs: &[bool], composition: &Composition) -> Option<CompNo>
    requires { length runs.now ≡ length (compositions_of instance.now) }
    ensures { (t : ℕ) → runs.now ≡ runs_on instance.now t → (comp : ℕ)
        → (result ≡ Some comp) ↔ (IsAdmittedComp instance.now t comp
        × (composition_at instance.now comp ≡ composition.now)) }
{
    let comp = number_of(instance, composition)?;
    if !may_run(runs, comp) {
        return None;
    }
    Some(comp)
}

/// The number of a composition in the day's catalogue, or nothing where it is not there.
pub(crate) fn number_of(instance: &Instance, composition: &Composition) -> Option<CompNo>
    ensures { (comp : ℕ) → (result ≡ Some comp)
        ↔ ((comp < length (compositions_of instance.now)) × (composition_at instance.now comp ≡ composition.now)) }
{
    instance.catalogue().find(composition)
}
