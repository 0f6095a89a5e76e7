//! Cuts: the trip and the type whose count in the picks of the last evaluations is nearest to one half.

use branch_tree::{Cut, Region};
use moves::Network;
use rail_base::limits::MAX_TYPES;
use rail_base::{NoMemory, TripNo, TypeNo};
use std::alloc::Global;
use timetable::Picks;

/// In what parts of a unit counts are averaged.
const PARTS: u64 = 1_000;

/// How many units of each type each trip had in picks, all together.
#[derive(Drop)]
pub(crate) struct PickCounts {
    sums: Vec<u64>,
    types: usize,
    taken: u64,
}

impl PickCounts {
    /// No counts, of so many trips and types. The error is want of memory.
    pub(crate) fn new(alloc: Global, trips: usize, types: usize) -> Result<PickCounts, NoMemory> {
        Ok(PickCounts {
            sums: vec![in alloc; 0; trips.saturating_mul(types)]?,
            types,
            taken: 0,
        })
    }

    /// Takes all counts out.
    pub(crate) fn clear(&mut self) {
        self.taken = 0;
        for place in 0..self.sums.len() {
            self.sums[place] = 0;
        }
    }

    /// Adds the counts of picks.
    pub(crate) fn add(&mut self, network: &Network, picks: &Picks) {
        self.taken = self.taken.saturating_add(1);
        for trip in 0..picks.len() {
            let units = network.units(picks.get(TripNo(trip)));
            for unit_type in 0..self.types.min(MAX_TYPES) {
                let place = (trip as usize)
                    .saturating_mul(self.types)
                    .saturating_add(unit_type);
                if place < self.sums.len() {
                    self.sums[place] = self.sums[place].saturating_add(u64::from(
                        units.by_type[unit_type],
                    ));
                }
            }
        }
    }

    /// The cut between the whole numbers beside the average that is nearest to their middle, the first of them; where
    /// all averages are whole, the cut that leaves the first trip with a choice its pick.
    pub(crate) fn cut(&self, picks: &Picks, region: &Region) -> Option<Cut> {
        let mut found = None;
        let mut least = PARTS / 2;
        let mut trip: u32 = 0;
        let mut unit_type: u32 = 0;
        for place in 0..self.sums.len() {
            let average = self.sums[place]
                .saturating_mul(PARTS)
                .checked_div(self.taken)
                .unwrap_or(0);
            let distance = (average % PARTS).abs_diff(PARTS / 2);
            if distance < least {
                least = distance;
                found = Some(Cut::AtMost {
                    trip: TripNo(trip),
                    unit_type: TypeNo(unit_type),
                    count: u32::try_from(average / PARTS).unwrap_or(u32::MAX),
                });
            }
            unit_type = unit_type.saturating_add(1);
            if unit_type as usize >= self.types {
                unit_type = 0;
                trip = trip.saturating_add(1);
            }
        }
        if found.is_some() {
            found
        } else {
            only_pick(picks, region)
        }
    }
}

/// The cut that leaves the first trip with more than one composition its pick.
fn only_pick(picks: &Picks, region: &Region) -> Option<Cut> {
    for trip in 0..picks.len().min(region.trips()) {
        if region.size(TripNo(trip)) > 1 {
            return Some(Cut::Only {
                trip: TripNo(trip),
                comp: picks.get(TripNo(trip)),
            });
        }
    }
    None
}
