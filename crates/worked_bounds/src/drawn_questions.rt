//! Regions and multipliers by chance.

use crate::drawn_days::Draws;
use crate::drawn_picks::pick_of;
use crate::listing::choices_of;
use branch_tree::{Cut, Multipliers, Region, Side};
use rail_base::{CompNo, TripNo, TypeNo};
use std::alloc::Global;
use std::test::Fail;
use timetable::{Instance, Picks};

/// The region of a day after some cuts, most of which keep the side of these picks. Nothing where it has too many
/// choices to be listed.
pub(crate) fn drawn_region(
    alloc: Global,
    day: &Instance,
    picks: &Picks,
    draws: &mut Draws,
) -> Result<Option<Region>, Fail> {
    let mut region = Region::root(alloc, day)?;
    for _ in 0..40 {
        if choices_of(day, &region).is_some() && draws.below(3) == 0 {
            return Ok(Some(region));
        }
        let cut = drawn_cut(day, draws);
        if region.is_proper(day.catalogue(), &cut) {
            let side = drawn_side(day, &cut, picks, draws);
            let _before = region.cut(day.catalogue(), &cut, side);
        }
    }
    Ok(None)
}

/// A cut of one composition, or of so many units of a type.
fn drawn_cut(day: &Instance, draws: &mut Draws) -> Cut {
    let trip = TripNo(draws.below(day.trips().max(1)));
    if draws.below(3) == 0 {
        Cut::Only {
            trip,
            comp: CompNo(draws.below(day.catalogue().len().max(1))),
        }
    } else {
        Cut::AtMost {
            trip,
            unit_type: TypeNo(draws.below(2)),
            count: draws.below(3),
        }
    }
}

/// The side of a cut on which the picks are, and one time in ten the other one.
fn drawn_side(day: &Instance, cut: &Cut, picks: &Picks, draws: &mut Draws) -> Side {
    let is_met = cut.is_met(day.catalogue(), pick_of(picks, cut.trip()));
    if is_met == (draws.below(10) != 0) {
        Side::Left
    } else {
        Side::Right
    }
}

/// Up to six multipliers of at most 300 in size, that fit. One list in four has none.
pub(crate) fn drawn_multipliers(
    alloc: Global,
    day: &Instance,
    draws: &mut Draws,
) -> Result<Multipliers, Fail> {
    let mut multipliers = Multipliers::new(alloc)?;
    if draws.below(4) == 0 {
        return Ok(multipliers);
    }
    for _ in 0..1 + draws.below(6) {
        let index = draws.below(day.indices().max(1));
        let size = i64::from(draws.below(4)) * 100;
        let is_negative = index >= day.free_from() && draws.below(2) == 0;
        multipliers.put(index, if is_negative { -size } else { size })?;
    }
    Ok(multipliers)
}
