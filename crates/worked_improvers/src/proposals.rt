//! What improvers propose, made of numbers.

use branch_tree::Multipliers;
use rail_base::{CompNo, NoMemory, TripNo};
use std::alloc::Global;
use timetable::Picks;

/// Multipliers with these values at these indices, as far as they may be put.
pub(crate) fn multipliers_of(alloc: Global, puts: &[(u32, i64)]) -> Result<Multipliers, NoMemory> {
    let mut multipliers = Multipliers::new(alloc)?;
    for (index, value) in puts {
        let _is_put = multipliers.put(*index, *value).is_ok();
    }
    Ok(multipliers)
}

/// These compositions, one for each trip.
pub(crate) fn picks_of(alloc: Global, compositions: &[u32]) -> Result<Picks, NoMemory> {
    let Ok(trips) = u32::try_from(compositions.len()) else {
        return Err(NoMemory);
    };
    let mut picks = Picks::new(alloc, trips)?;
    for trip in 0..trips {
        set_pick(&mut picks, TripNo(trip), compositions.get(trip as usize));
    }
    Ok(picks)
}

/// Gives a trip a composition, where both are there.
fn set_pick(picks: &mut Picks, trip: TripNo, comp: Option<&u32>) {
    let Some(comp) = comp else {
        return;
    };
    if trip.0 < picks.len() {
        picks.set(trip, CompNo(*comp));
    }
}
