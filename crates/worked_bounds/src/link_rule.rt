//! The rule of links, read off the lists of types that picks have: which picks lead on, and what the parts of joins
//! and splits are.

use branch_tree::Region;
use compositions::Composition;
use rail_base::{CompNo, LinkNo, TripNo, TypeNo};
use rail_csv::End;
use timetable::{Instance, Link, LinkKind, Picks};

/// Whether each link leads on from picks to picks, and each part lies in the region's set of its second trip.
pub(crate) fn lead_on(day: &Instance, region: &Region, picks: &Picks) -> bool {
    for link in 0..day.links() {
        if !leads_on(day, region, day.link(LinkNo(link)), picks) {
            return false;
        }
    }
    true
}

/// Whether a link leads on, and its part, if it has one, lies in the region.
fn leads_on(day: &Instance, region: &Region, link: &Link, picks: &Picks) -> bool {
    let LinkKind::Turn {
        uncouple,
        couple,
        exchange,
        departing,
        ..
    } = link.kind
    else {
        return has_part(day, region, link, picks);
    };
    match (
        arriving_train(day, link, picks),
        train_of(day, picks, departing),
    ) {
        (Some(arriving), Some(departing)) => turns(
            uncouple,
            couple,
            exchange,
            arriving.units(),
            departing.units(),
        ),
        _ => false,
    }
}

/// Whether a join or a split has a part, and it lies in the region.
fn has_part(day: &Instance, region: &Region, link: &Link, picks: &Picks) -> bool {
    match (part_of(day, link, picks), link.kind.second()) {
        (Some(part), Some(second)) => has(day, region, second, part),
        _ => false,
    }
}

/// Whether a region has a composition for a trip; it has none where there is no such trip or composition.
pub(crate) fn has(day: &Instance, region: &Region, trip: TripNo, comp: CompNo) -> bool {
    trip.0 < region.trips() && comp.0 < day.catalogue().len() && region.has(trip, comp)
}

/// The part of a join or a split, in the driving direction of its second trip: what departs behind the first train of
/// a join, or what arrives behind the first train of a split. Nothing where the first train is not in front, where
/// nothing is behind it, and at a turn.
pub(crate) fn part_of(day: &Instance, link: &Link, picks: &Picks) -> Option<CompNo> {
    let front = arriving_train(day, link, picks)?;
    let departing = train_of(day, picks, link.kind.leads_to())?;
    let part = match link.kind {
        LinkKind::Turn { .. } => return None,
        LinkKind::Join { .. } => {
            let behind = Composition::of(departing.units().strip_prefix(front.units())?)?;
            if link.reverse {
                behind.reversed()
            } else {
                behind
            }
        }
        LinkKind::Split { .. } => {
            Composition::of(front.units().strip_prefix(departing.units())?)?
        }
    };
    day.catalogue().find(&part)
}

/// The train that arrives first at a link, turned round where the link says so.
fn arriving_train(day: &Instance, link: &Link, picks: &Picks) -> Option<Composition> {
    let train = train_of(day, picks, link.kind.leads_from())?;
    Some(if link.reverse {
        train.reversed()
    } else {
        train.copied()
    })
}

/// What is picked for a trip; nothing where there is no such trip or composition.
fn train_of<'a>(day: &'a Instance, picks: &Picks, trip: TripNo) -> Option<&'a Composition> {
    if trip.0 >= picks.len() {
        return None;
    }
    let comp = picks.get(trip);
    if comp.0 >= day.catalogue().len() {
        return None;
    }
    Some(day.catalogue().get(comp))
}

/// Whether a turn leads from arriving to departing types: some units stay, the others go at the uncoupling end or
/// come at the coupling end, and only an exchange does both, with one or two units each.
fn turns(
    uncouple: End,
    couple: End,
    exchange: bool,
    arriving: &[TypeNo],
    departing: &[TypeNo],
) -> bool {
    for off in 0..arriving.len() {
        let stay = arriving.len() - off;
        if stay <= departing.len() {
            let on = departing.len() - stay;
            let is_lawful = off == 0 || on == 0 || (exchange && off <= 2 && on <= 2);
            let left = without(uncouple, arriving, off);
            if is_lawful && left.is_some() && left == without(couple, departing, on) {
                return true;
            }
        }
    }
    false
}

/// What is left of a list without so many at an end; nothing where it has fewer, or where no end is named and it is to
/// lose some.
fn without(end: End, list: &[TypeNo], lost: usize) -> Option<&[TypeNo]> {
    if lost > list.len() || (lost > 0 && matches!(end, End::None)) {
        return None;
    }
    match end {
        End::Front => Some(&list[lost..]),
        End::None | End::Rear => Some(&list[..list.len() - lost]),
    }
}
