//! The multipliers of a day, numbered by one index.

ghost use Rattle.std.specs.Prelude.{ℕ, ◌≡◌, ◌≤◌, ◌<◌, ◌↔◌, ◌+◌, ◌*◌, ◌^◌, length, slice_get, Some};
ghost use Rattle.timetable.specs.Indices.{IsLambda, IsIndexOf, IsPlace, lambdas_of, mus_of, sigmas_of, places_of};
ghost use Rattle.timetable.specs.Lists.{sum_below};
ghost use Rattle.timetable.specs.Minutes.{minutes_of};

use crate::day::instance::Instance;
use rail_base::limits::{MAX_COMPOSITIONS, MAX_HANDOVERS, MAX_STATIONS, MAX_TRIPS, MAX_TYPES};
use rail_base::{CompNo, StationNo, TypeNo};

/// What a multiplier belongs to.
#[derive(Clone, Copy)]
pub enum Place {
    /// A departure minute of a station, by its place among them, and a type.
    Lambda {
        /// The station.
        station: StationNo,
        /// The type.
        unit_type: TypeNo,
        /// How many departure minutes of the station are earlier.
        place: u32,
    },
    /// A station and a type.
    Mu {
        /// The station.
        station: StationNo,
        /// The type.
        unit_type: TypeNo,
    },
    /// A hand-over and a composition of the catalogue.
    Sigma {
        /// How many hand-overs of the day, in the order of their links, come before it.
        handover: u32,
        /// The number of the composition.
        comp: CompNo,
    },
}

/// The number of a place in rows of one width: those of the rows before its own, and then those before it in its row.
fn number_in_rows(row: u32, rows: u32, place: u32, width: u32) -> u32
    requires row { row < rows }
    requires place { place < width }
    requires fits { rows * width < 2 ^ 32 }
    ensures value { result ≡ row * width + place }
    ensures within { result < rows * width }
{
    prove!(row < rows);
    row * width + place
}

impl Instance {
    /// How many departure minutes the stations before one have together: no more than there are trips.
    fn minutes_before(&self, station: u32) -> u32
        requires station { station ≤ length self.now.stations }
        ensures value { result ≡ sum_below (λ s. length (minutes_of self.now s)) station }
        ensures few { result ≤ MAX_TRIPS }
    {
        let mut minutes = 0;
        for earlier in 0..station {
            minutes += self.minutes(StationNo(earlier)).len() as u32;
        }
        minutes
    }

    /// How many multipliers belong to a departure minute: the index of the first that may be negative, where there is
    /// one.
    pub fn free_from(&self) -> u32
        ensures value { result ≡ length (lambdas_of self.now) }
        ensures few { result ≤ MAX_TYPES * MAX_TRIPS }
    {
        self.types().len() * self.minutes_before(self.stations())
    }

    /// How many multipliers belong to a station and a type.
    fn mus(&self) -> u32
        ensures value { result ≡ length (mus_of self.now) }
        ensures few { result ≤ MAX_STATIONS * MAX_TYPES }
    {
        self.stations() * self.types().len()
    }

    /// How many multipliers there are.
    pub fn indices(&self) -> u32
        ensures value { result ≡ length (places_of self.now) }
        ensures few { result ≤ MAX_TYPES * MAX_TRIPS + MAX_STATIONS * MAX_TYPES
            + MAX_HANDOVERS * MAX_COMPOSITIONS }
    {
        self.free_from() + self.mus() + self.handovers() * self.catalogue().len()
    }

    /// The index of the multiplier of this place, whose numbers are those of the day. It takes no memory.
    pub fn index(&self, place: Place) -> u32
        requires { IsPlace self.now place }
        ensures { IsIndexOf self.now place result }
    {
        match place {
            Place::Lambda {
                station,
                unit_type,
                place,
            } => {
                let types = self.types().len();
                let minutes = self.minutes(station).len() as u32;
                let before = types * self.minutes_before(station.0);
                before + number_in_rows(unit_type.0, types, place, minutes)
            }
            Place::Mu { station, unit_type } => {
                let types = self.types().len();
                self.free_from() + number_in_rows(station.0, self.stations(), unit_type.0, types)
            }
            Place::Sigma { handover, comp } => {
                let comps = self.catalogue().len();
                let before = self.free_from() + self.mus();
                before + number_in_rows(handover, self.handovers(), comp.0, comps)
            }
        }
    }

    /// What the multiplier of this index belongs to. The index is below `indices`. It takes no memory.
    pub fn place(&self, index: u32) -> Place
        requires { index < length (places_of self.now) }
        ensures index { IsIndexOf self.now result index }
        ensures known { IsPlace self.now result }
        ensures lambda { IsLambda result ↔ (index < length (lambdas_of self.now)) }
    {
        let free_from = self.free_from();
        if index < free_from {
            return self.lambda_at(index);
        }
        let mus = self.mus();
        let left = index - free_from;
        if left < mus {
            self.mu_at(left)
        } else {
            self.sigma_at(left - mus)
        }
    }

    /// The departure minute, station and type of this number among those.
    fn lambda_at(&self, index: u32) -> Place
        requires { index < length (lambdas_of self.now) }
        ensures { slice_get (places_of self.now) index ≡ Some result }
    {
        let types = self.types().len();
        let mut left = index;
        for station in 0..self.stations() {
            let minutes = self.minutes(StationNo(station)).len() as u32;
            if left < types * minutes {
                return Place::Lambda {
                    station: StationNo(station),
                    unit_type: TypeNo(left / minutes),
                    place: left % minutes,
                };
            }
            left -= types * minutes;
        }
        unreachable!()
    }

    /// The station and type of this number among those.
    fn mu_at(&self, left: u32) -> Place
        requires { left < length (mus_of self.now) }
        ensures { slice_get (places_of self.now) (length (lambdas_of self.now) + left) ≡ Some result }
    {
        let types = self.types().len();
        Place::Mu {
            station: StationNo(left / types),
            unit_type: TypeNo(left % types),
        }
    }

    /// The hand-over and composition of this number among those.
    fn sigma_at(&self, left: u32) -> Place
        requires { left < length (sigmas_of self.now) }
        ensures { slice_get (places_of self.now) (length (lambdas_of self.now) + (length (mus_of self.now) + left))
            ≡ Some result }
    {
        let comps = self.catalogue().len();
        Place::Sigma {
            handover: left / comps,
            comp: CompNo(left % comps),
        }
    }
}
