//! Counts of the yards, which are kept up to date with each change.

use crate::network::{Network, Units};
use rail_base::limits::MAX_TYPES;
use rail_base::{NoMemory, StationNo};
use std::alloc::Global;

/// What stands for the least count of no minutes.
pub const MANY: i32 = 1_048_576;

/// For each station and type the count at each departure minute, and at the end of the day.
#[derive(Drop)]
pub struct Counts {
    /// The counts at departure minutes.
    counts: Vec<i32>,
    /// The counts at the end of the day.
    ends: Vec<i32>,
}

impl Counts {
    /// The counts at the start of a day. The error is want of memory.
    pub fn new(alloc: Global, network: &Network) -> Result<Counts, NoMemory> {
        let mut length = 0;
        for station in 0..network.places.len() {
            length = network.places[station]
                .saturating_mul(network.types)
                .saturating_add(length);
        }
        Ok(Counts {
            counts: vec![in alloc; 0; length]?,
            ends: vec![in alloc; 0; network.yards.len()]?,
        })
    }

    /// Sets all counts to what stands there at the start of the day.
    pub fn reset(&mut self, network: &Network) {
        for yard in 0..network.yards.len().min(self.ends.len()) {
            self.ends[yard] = network.yards[yard].start;
        }
        for yard in 0..network.yards.len() {
            let row = network.yards[yard];
            let after = match network.yards.get(yard.saturating_add(1)) {
                Some(next) => next.first,
                None => self.counts.len(),
            };
            for place in row.first..after.min(self.counts.len()) {
                self.counts[place] = row.start;
            }
        }
    }

    /// Takes over other counts.
    pub fn copy_from(&mut self, other: &Counts) {
        if self.counts.len() == other.counts.len() {
            self.counts.copy_from_slice(&other.counts);
        }
        if self.ends.len() == other.ends.len() {
            self.ends.copy_from_slice(&other.ends);
        }
    }

    /// Adds units, times a sign, to the counts of a station from a place on.
    pub fn change(
        &mut self,
        network: &Network,
        station: StationNo,
        units: Units,
        place: usize,
        sign: i32,
    ) {
        let places = network.places(station);
        for unit_type in 0..network.types.min(MAX_TYPES) {
            let change = i32::from(units.by_type[unit_type]).saturating_mul(sign);
            if change != 0 {
                let yard = network.yard_place(station, unit_type);
                if yard < self.ends.len() {
                    self.ends[yard] = self.ends[yard].saturating_add(change);
                }
                let first = network.yard(station, unit_type).first;
                self.change_counts(
                    first.saturating_add(place),
                    first.saturating_add(places),
                    change,
                );
            }
        }
    }

    /// Adds to the counts from one place up to another.
    fn change_counts(&mut self, from: usize, until: usize, change: i32) {
        let until = until.min(self.counts.len());
        for place in from..until {
            self.counts[place] = self.counts[place].saturating_add(change);
        }
    }

    /// The least count of a station and type from one place up to another, `MANY` where there is none.
    pub fn least(
        &self,
        network: &Network,
        station: StationNo,
        unit_type: usize,
        from: usize,
        until: usize,
    ) -> i32 {
        let first = network.yard(station, unit_type).first;
        let mut least = MANY;
        let until = first.saturating_add(until).min(self.counts.len());
        for place in first.saturating_add(from)..until {
            least = least.min(self.counts[place]);
        }
        least
    }

    /// The count of a yard at the end of the day.
    pub fn end(&self, yard: usize) -> i32 {
        self.ends.get(yard).copied().unwrap_or(0)
    }

    /// For each station and type the units missing at its most negative count and the distance of its end from the
    /// wanted one, all together.
    pub fn violations(&self, network: &Network) -> i64 {
        let mut sum: i64 = 0;
        for station in 0..network.places.len() {
            for unit_type in 0..network.types {
                sum = sum.saturating_add(self.violations_at(network, station, unit_type));
            }
        }
        sum
    }

    /// The same for one station and type.
    fn violations_at(&self, network: &Network, station: usize, unit_type: usize) -> i64 {
        let yard = station
            .saturating_mul(network.types)
            .saturating_add(unit_type);
        let Some(row) = network.yards.get(yard).copied() else {
            return 0;
        };
        let places = network.places.get(station).copied().unwrap_or(0);
        let mut least: i64 = 0;
        for place in row.first..row.first.saturating_add(places).min(self.counts.len()) {
            least = least.min(i64::from(self.counts[place]));
        }
        let distance = i64::from(self.end(yard)).saturating_sub(i64::from(row.wanted));
        size_of(distance).saturating_sub(least)
    }

    /// The stations that have a negative count or an end that is not the wanted one, as bits.
    pub fn broken_stations(&self, network: &Network) -> u64 {
        let mut stations: u64 = 0;
        for station in 0..network.places.len().min(64) {
            let mut sum: i64 = 0;
            for unit_type in 0..network.types {
                sum = sum.saturating_add(self.violations_at(network, station, unit_type));
            }
            if sum != 0 {
                stations |= 1u64 << station;
            }
        }
        stations
    }
}

/// The size of a number, whatever its sign.
pub fn size_of(value: i64) -> i64 {
    if value < 0 {
        0i64.saturating_sub(value)
    } else {
        value
    }
}
