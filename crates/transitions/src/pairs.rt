//! The pairs of compositions between which a link may have an edge.

ghost use Rattle.std.specs.Prelude.{ℕ, ◌≡◌, ◌<◌, ◌≤◌, ◌↔◌, List, [], Some, All, AllPairs, length, IfOk, OnOk, IfSome};
ghost use Rattle.std.specs.Prelude.{IsNone, Contains};
ghost use Rattle.timetable.specs.Compositions.{compositions_of, composition_at};
ghost use Rattle.timetable.specs.Links.{turned};
ghost use Rattle.timetable.specs.Turns.{staying};
ghost use Rattle.transitions.specs.Pairs.{AreAdmitted, uncoupled_at, coupled_at, may_exchange, joined_at};
ghost use Rattle.transitions.specs.Pairs.{AreAmongFirst, IsKnown, IsFront, IsLeft, IsJoined, IsExchanged, IsMade};
ghost use Rattle.transitions.specs.Pairs.{Grown, HaveEdges, IsBeforePair};
ghost use Rattle.transitions.specs.declared.pairs.Pair.{Pair};

use crate::allowed::{Admitted, may_run, number_of};
use crate::turns::turned;
use compositions::Composition;
use rail_base::limits::{MAX_COMPOSITION_UNITS, MAX_EXCHANGED};
use rail_base::{CompNo, NoMemory};
use rail_csv::End;
use std::alloc::Global;
use timetable::{Instance, Link, LinkKind, staying};

/// An arriving and a departing composition.
#[derive(Clone, Copy, PartialEq, Eq, PartialOrd, Ord)]
pub(crate) struct Pair {
    /// The composition that arrives.
    pub(crate) from: CompNo,
    /// The composition that departs.
    pub(crate) to: CompNo,
}

/// What stays of a composition when all but so many units go at this end; all of it where none goes.
fn left_at(end: End, composition: &Composition, units: u32) -> Composition
    requires some { 1 ≤ units }
    requires within { units ≤ length composition.now }
    ensures { result ≡ staying end composition.now units }
{
    let Some(left) = Composition::of(staying(end, composition.units(), units as usize)) else {
        unreachable!()
    };
    left
}

/// Adds the pairs of a departing composition with each arriving one that, after a reversal, is some of its units.
fn add_fronts(
    pairs: &mut Vec<Pair>,
    instance: &Instance,
    reversed: bool,
    end: End,
    to: CompNo,
) -> Result<(), NoMemory>
    requires to { to < length (compositions_of instance.now) }
    requires known { All (IsKnown instance.now) pairs.old.items }
    ensures { OnOk result
        (Grown instance.now pairs.old.items pairs.new.items
        (λ pair. (pair.to ≡ to) × IsFront instance.now reversed end (length (composition_at instance.now to)) pair)) }
{
    let departing = instance.catalogue().get(to);
    for units in 0..departing.len() {
        let arriving = turned(reversed, &left_at(end, departing, units + 1));
        if let Some(from) = number_of(instance, &arriving) {
            pairs.push(Pair { from, to })?;
        }
    }
    Ok(())
}

/// Adds the pairs of an arriving composition with each departing one that is some of its units, after a reversal.
fn add_lefts(
    pairs: &mut Vec<Pair>,
    instance: &Instance,
    reversed: bool,
    end: End,
    from: CompNo,
) -> Result<(), NoMemory>
    requires from { from < length (compositions_of instance.now) }
    requires known { All (IsKnown instance.now) pairs.old.items }
    ensures { OnOk result
        (Grown instance.now pairs.old.items pairs.new.items
        (λ pair. (pair.from ≡ from)
        × IsLeft instance.now reversed end (length (composition_at instance.now from)) pair)) }
{
    let arriving = turned(reversed, instance.catalogue().get(from));
    for units in 0..arriving.len() {
        if let Some(to) = number_of(instance, &left_at(end, &arriving, units + 1)) {
            pairs.push(Pair { from, to })?;
        }
    }
    Ok(())
}

/// The end at which a link takes units from the arriving train: the second train of a split goes from the rear.
fn uncoupled_at(kind: LinkKind) -> End
    ensures { result ≡ uncoupled_at kind }
{
    match kind {
        LinkKind::Turn { uncouple, .. } => uncouple,
        LinkKind::Join { .. } => End::None,
        LinkKind::Split { .. } => End::Rear,
    }
}

/// The end at which a link adds units to the arriving train: the second train of a join comes to the rear.
fn coupled_at(kind: LinkKind) -> End
    ensures { result ≡ coupled_at kind }
{
    match kind {
        LinkKind::Turn { couple, .. } => couple,
        LinkKind::Join { .. } => End::Rear,
        LinkKind::Split { .. } => End::None,
    }
}

/// Whether a link is a turn with exchange, which may uncouple units at its uncoupling end and couple units at its
/// coupling end. A join and a split are none.
pub fn may_exchange(kind: LinkKind) -> bool
    ensures { result ≡ may_exchange kind }
{
    match kind {
        LinkKind::Turn { exchange, .. } => exchange,
        LinkKind::Join { .. } | LinkKind::Split { .. } => false,
    }
}

/// How many compositions stand in the catalogue before the first of more units than an exchange may uncouple: all of no
/// more units are among them.
fn uncoupled_part_count(instance: &Instance) -> u32
    ensures { AreAmongFirst instance.now result }
{
    let catalogue = instance.catalogue();
    for part in 0..catalogue.len() {
        if catalogue.get(CompNo(part)).units().len() > MAX_EXCHANGED {
            return part;
        }
    }
    catalogue.len()
}

/// Units with others at this end, or nothing where they are more than six together.
fn joined_at(end: End, units: &Composition, others: &Composition) -> Option<Composition>
    ensures some { IfSome result (λ joined. joined ≡ joined_at end units.now others.now) }
    ensures none { IsNone result → MAX_COMPOSITION_UNITS < length (joined_at end units.now others.now) }
{
    match end {
        End::None => Some(units.copied()),
        End::Rear => units.joined(others),
        End::Front => others.joined(units),
    }
}

/// The number of the composition that, before a reversal, is units with others at this end, or nothing where it is not
/// in the catalogue.
fn number_of_joined(
    instance: &Instance,
    reversed: bool,
    end: End,
    units: &Composition,
    others: &Composition,
) -> Option<CompNo>
    ensures { (comp : ℕ) → (result ≡ Some comp)
        ↔ ((comp < length (compositions_of instance.now))
        × (composition_at instance.now comp ≡ turned reversed (joined_at end units.now others.now))) }
{
    let joined = joined_at(end, units, others)?;
    number_of(instance, &turned(reversed, &joined))
}

/// Adds the pairs of a departing composition with each arriving one that, after a reversal, is these units with one of
/// the first so many compositions at an end.
fn add_joined(
    pairs: &mut Vec<Pair>,
    instance: &Instance,
    reversed: bool,
    end: End,
    units: &Composition,
    few: u32,
    to: CompNo,
) -> Result<(), NoMemory>
    requires few { few ≤ length (compositions_of instance.now) }
    requires to { to < length (compositions_of instance.now) }
    requires known { All (IsKnown instance.now) pairs.old.items }
    ensures { OnOk result
        (Grown instance.now pairs.old.items pairs.new.items
        (λ pair. (pair.to ≡ to) × IsJoined instance.now reversed end units.now few pair)) }
{
    for part in 0..few {
        let others = instance.catalogue().get(CompNo(part));
        if let Some(from) = number_of_joined(instance, reversed, end, units, others) {
            pairs.push(Pair { from, to })?;
        }
    }
    Ok(())
}

/// Adds the pairs of a departing composition with each arriving one from which an exchange uncouples one of the first
/// so many compositions.
fn add_exchanged(
    pairs: &mut Vec<Pair>,
    instance: &Instance,
    link: &Link,
    few: u32,
    to: CompNo,
) -> Result<(), NoMemory>
    requires few { few ≤ length (compositions_of instance.now) }
    requires to { to < length (compositions_of instance.now) }
    requires known { All (IsKnown instance.now) pairs.old.items }
    ensures { OnOk result
        (Grown instance.now pairs.old.items pairs.new.items
        (λ pair. (pair.to ≡ to)
        × IsExchanged instance.now link.now.reverse (uncoupled_at link.now.kind)
        (coupled_at link.now.kind) few MAX_EXCHANGED pair)) }
{
    let departing = instance.catalogue().get(to);
    let (uncouple, couple) = (uncoupled_at(link.kind), coupled_at(link.kind));
    for coupled in 0..MAX_EXCHANGED as u32 {
        if coupled + 1 < departing.len() {
            let kept = left_at(couple, departing, departing.len() - (coupled + 1));
            add_joined(pairs, instance, link.reverse, uncouple, &kept, few, to)?;
        }
    }
    Ok(())
}

/// Adds the pairs of a departing composition with each arriving one of which the link may make it.
fn add_made(
    pairs: &mut Vec<Pair>,
    instance: &Instance,
    link: &Link,
    few: u32,
    to: CompNo,
) -> Result<(), NoMemory>
    requires few { few ≤ length (compositions_of instance.now) }
    requires to { to < length (compositions_of instance.now) }
    requires known { All (IsKnown instance.now) pairs.old.items }
    ensures { OnOk result
        (Grown instance.now pairs.old.items pairs.new.items
        (λ pair. (pair.to ≡ to) × IsMade instance.now link.now.kind link.now.reverse few pair)) }
{
    add_fronts(pairs, instance, link.reverse, coupled_at(link.kind), to)?;
    if may_exchange(link.kind) {
        add_exchanged(pairs, instance, link, few, to)?;
    }
    Ok(())
}

/// The pairs of compositions, each once and in order, between which the link may have an edge. Of its way no clause
/// speaks: it looks for each of the units of each composition once or twice in the catalogue, and where the link has
/// exchange for what stays of each composition with each list of one or two units.
pub(crate) fn pairs_of(
    alloc: Global,
    instance: &Instance,
    link: &Link,
    admitted: &Admitted,
) -> Result<Vec<Pair>, NoMemory>
    requires { AreAdmitted instance.now link.now.kind admitted.now }
    ensures known { IfOk result (λ pairs. All (IsKnown instance.now) pairs.items) }
    ensures edges { IfOk result (λ pairs. HaveEdges instance.now link.now.kind link.now.reverse pairs.items) }
    ensures in_order { IfOk result (λ pairs. AllPairs IsBeforePair pairs.items) }
{
    let mut pairs = Vec::new(alloc);
    let few = uncoupled_part_count(instance);
    for to in 0..instance.catalogue().len() {
        if may_run(&admitted.departing, CompNo(to)) {
            add_made(&mut pairs, instance, link, few, CompNo(to))?;
        }
    }
    let uncouple = uncoupled_at(link.kind);
    for from in 0..instance.catalogue().len() {
        if may_run(&admitted.arriving, CompNo(from)) {
            add_lefts(&mut pairs, instance, link.reverse, uncouple, CompNo(from))?;
        }
    }
    pairs.sort_unstable();
    pairs.dedup();
    Ok(pairs)
}
