//! What tests ask of a relaxation of a day. What may not be asked fails the test.

use branch_tree::{BoundAnswer, Entry, Multipliers, Region, Relaxation, Settled, Slacks, Weight};
use rail_base::{CompNo, TripNo};
use std::alloc::Global;
use std::test::Fail;
use timetable::Picks;

/// What a bound answers, and the picks that it leaves where each trip had composition 1 before.
#[derive(Drop)]
pub(crate) struct Bound {
    pub(crate) answer: BoundAnswer,
    pub(crate) best: Picks,
}

/// What the bound of a region answers.
pub(crate) fn bound_of<R: Relaxation>(
    alloc: Global,
    bounds: &mut R,
    region: &Region,
    multipliers: &Multipliers,
    weight: Weight,
) -> Result<Bound, Fail> {
    let mut best = Picks::new(alloc, bounds.trips())?;
    set_seconds(&mut best);
    let answer = answer_of(bounds, region, multipliers, weight, &mut best)?;
    Ok(Bound { answer, best })
}

/// Gives each trip composition 1.
fn set_seconds(picks: &mut Picks) {
    for trip in 0..picks.len() {
        if trip < picks.len() {
            picks.set(TripNo(trip), CompNo(1));
        }
    }
}

/// What the bound of a region answers, which leaves its picks.
fn answer_of<R: Relaxation>(
    bounds: &mut R,
    region: &Region,
    multipliers: &Multipliers,
    weight: Weight,
    best: &mut Picks,
) -> Result<BoundAnswer, Fail> {
    if best.len() != bounds.trips() || region.trips() != bounds.trips() {
        return Err(Fail::new("the region is not one of the day"));
    }
    if !multipliers.fits(bounds.indices(), bounds.free_from()) {
        return Err(Fail::new("the multipliers do not fit"));
    }
    Ok(bounds.bound(region, multipliers, weight, best))
}

/// Whether there is a pick for each trip, and the picks follow.
pub(crate) fn do_follow<R: Relaxation>(bounds: &R, picks: &Picks) -> bool {
    picks.len() == bounds.trips() && bounds.follows(picks)
}

/// What settling answers for picks that follow.
pub(crate) fn settled<R: Relaxation>(bounds: &mut R, picks: &Picks) -> Result<Settled, Fail> {
    if picks.len() != bounds.trips() || !bounds.follows(picks) {
        return Err(Fail::new("the picks do not follow"));
    }
    Ok(bounds.settle(picks))
}

/// The slacks of picks that follow.
pub(crate) fn slacks_of<R: Relaxation>(
    alloc: Global,
    bounds: &mut R,
    picks: &Picks,
) -> Result<Slacks, Fail> {
    if picks.len() != bounds.trips() || !bounds.follows(picks) {
        return Err(Fail::new("the picks do not follow"));
    }
    let mut slacks = Slacks::new(alloc)?;
    slacks.put(Entry { index: 0, value: 1 });
    bounds.slacks(picks, &mut slacks);
    Ok(slacks)
}

/// Multipliers, of which each stands behind its index.
pub(crate) fn multipliers_of(alloc: Global, entries: &[(u32, i64)]) -> Result<Multipliers, Fail> {
    let mut multipliers = Multipliers::new(alloc)?;
    for entry in entries {
        let (index, value) = *entry;
        multipliers.put(index, value)?;
    }
    Ok(multipliers)
}

/// Picks of these compositions, in the order of the trips.
pub(crate) fn picks_of(alloc: Global, comps: &[u32]) -> Result<Picks, Fail> {
    let Ok(trips) = u32::try_from(comps.len()) else {
        return Err(Fail::new("the compositions are too many"));
    };
    let mut picks = Picks::new(alloc, trips)?;
    for trip in 0..trips {
        set_pick(&mut picks, TripNo(trip), comps.get(trip as usize));
    }
    Ok(picks)
}

/// Gives a trip a composition, where both are there.
fn set_pick(picks: &mut Picks, trip: TripNo, comp: Option<&u32>) {
    let Some(comp) = comp else {
        return;
    };
    if trip.0 < picks.len() {
        picks.set(trip, CompNo(*comp));
    }
}
