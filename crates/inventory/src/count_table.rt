//! A table of counts: for each station and type one for each departure minute of the station, and one for the end of
//! the day.
//!
//! It is filled in two passes. The first notes each unit that is given or taken at the first minute at which it counts,
//! the second adds these numbers up, from the units at the start. So the time, of which no clause speaks, grows with
//! the units of all trains, the size of the table, and for each station and type the rows of the stock, among which its
//! start is sought.

ghost use Rattle.std.specs.Prelude.{ℕ, ◌≡◌, ◌<◌, ◌≤◌, ◌+◌, ◌^◌, [], map, length, get_or, take, drop, pos, OnOk, IfOk};
ghost use Rattle.std.specs.List.{AllPairs};
ghost use Rattle.timetable.specs.Links.{itself, given_with, taken_with};
ghost use Rattle.timetable.specs.Picks.{ArePicks, picked};
ghost use Rattle.timetable.specs.Day.{ready_at};
ghost use Rattle.inventory.specs.CountTable.{earlier, changed_at, changed_in, changed, changed_for, with_given};
ghost use Rattle.inventory.specs.CountTable.{with_taken, with_trips, sums_from, zeros, zeros_for, zero_table, cleared};
ghost use Rattle.inventory.specs.CountTable.{sums_for, all_sums, MoveFew};

use rail_base::limits::{MAX_COMPOSITION_UNITS, MAX_TYPES};
use rail_base::{Minute, NoMemory, StationNo, TripNo, TypeNo};
use std::alloc::Global;
use std::marker::Model;
use timetable::{Instance, Picks};

/// The counts of one type at one station. A contract sees the list of them.
#[derive(Drop)]
pub struct TypeCounts {
    counts: Vec<i64>,
}

impl Model for TypeCounts {
    ghost use Rattle.std.specs.Prelude.{List, ℤ};

    ghost Value = { List ℤ };

    ghost view = { λ a. a.counts.items };
}

/// The counts of one station, by type. A contract sees the list of their lists.
#[derive(Drop)]
pub struct StationCounts {
    types: Vec<TypeCounts>,
}

impl Model for StationCounts {
    ghost use Rattle.std.specs.Prelude.{List, ℤ, length, ◌≤◌};
    ghost use Rattle.rail_base.specs.declared.limits.TheConstants.{MAX_TYPES};

    ghost Value = { List (List ℤ) };

    ghost view = { λ a. a.types.items };

    ghost invariant = { λ a. length a.types.items ≤ MAX_TYPES };
}

/// The counts of all stations. A contract sees a list for each.
#[derive(Drop)]
pub struct CountTable {
    stations: Vec<StationCounts>,
}

impl Model for CountTable {
    ghost use Rattle.std.specs.Prelude.{List, ℤ, length, ◌≤◌};
    ghost use Rattle.rail_base.specs.declared.limits.TheConstants.{MAX_STATIONS};

    ghost Value = { List (List (List ℤ)) };

    ghost view = { λ a. a.stations.items };

    ghost invariant = { λ a. length a.stations.items ≤ MAX_STATIONS };
}

impl TypeCounts {
    /// A zero for each of so many minutes, and one for the end.
    fn new(alloc: Global, minutes: usize) -> Result<TypeCounts, NoMemory>
        requires { minutes < 2 ^ 32 }
        ensures { IfOk result (λ counts. counts ≡ zeros minutes) }
    {
        Ok(TypeCounts {
            counts: vec![in alloc; 0; minutes + 1]?,
        })
    }

    /// Sets each number to zero.
    fn clear(&mut self)
        ensures { self.new ≡ map (λ _. pos 0) self.old }
    {
        for place in 0..self.counts.len() {
            self.counts[place] = 0;
        }
    }

    /// Adds to the number at a place, if there is one.
    fn change(&mut self, place: usize, change: i64)
        ensures { self.new ≡ changed_at place change self.old }
    {
        if place < self.counts.len() {
            self.counts[place] = self.counts[place].saturating_add(change);
        }
    }

    /// Replaces each number by the sum of the first number, which is given, and all up to it.
    fn add_up(&mut self, first: i64)
        ensures { self.new ≡ sums_from first self.old }
    {
        let mut sum = first;
        for place in 0..self.counts.len() {
            sum = sum.saturating_add(self.counts[place]);
            self.counts[place] = sum;
        }
    }
}

impl StationCounts {
    /// Zeros for each of so many types.
    fn new(alloc: Global, types: usize, minutes: usize) -> Result<StationCounts, NoMemory>
        requires types { types ≤ MAX_TYPES }
        requires minutes { minutes < 2 ^ 32 }
        ensures { IfOk result (λ counts. counts ≡ zeros_for types minutes) }
    {
        let mut counts = Vec::new(alloc);
        for unit_type in 0..types {
            counts.push(TypeCounts::new(alloc, minutes)?)?;
        }
        Ok(StationCounts { types: counts })
    }

    /// Sets each number to zero.
    fn clear(&mut self)
        ensures { self.new ≡ map (map (λ _. pos 0)) self.old }
    {
        for place in 0..self.types.len() {
            self.types[place].clear();
        }
    }

    /// Adds to the number of a type at a place, if there is one.
    fn change(&mut self, unit_type: TypeNo, place: usize, change: i64)
        ensures { self.new ≡ changed_in unit_type place change self.old }
    {
        if unit_type.place() < self.types.len() {
            self.types[unit_type.place()].change(place, change);
        }
    }

    /// Adds up the numbers of each type, from the units at the start.
    fn add_up(&mut self, instance: &Instance, station: StationNo)
        ensures { self.new ≡ sums_for instance.now station 0 self.old }
    {
        for place in 0..self.types.len() {
            let start = instance.start(station, TypeNo(place as u32));
            self.types[place].add_up(i64::from(start));
        }
    }
}

impl CountTable {
    /// Zeros for each station and type of a day.
    pub fn new(alloc: Global, instance: &Instance) -> Result<CountTable, NoMemory>
        ensures { IfOk result (λ table. table ≡ zero_table instance.now) }
    {
        let types = instance.types().items().len();
        let mut stations = Vec::new(alloc);
        for station in 0..instance.stations() {
            let minutes = instance.minutes(StationNo(station)).len();
            stations.push(StationCounts::new(alloc, types, minutes)?)?;
        }
        Ok(CountTable { stations })
    }

    /// The number at a place: of a departure minute, or, after these, of the end of the day. There is such a number.
    pub fn get(&self, station: StationNo, unit_type: TypeNo, place: usize) -> i64
        requires station { station < length self.now }
        requires unit_type { unit_type < length (get_or self.now station []) }
        requires place { place < length (get_or (get_or self.now station []) unit_type []) }
        ensures { result ≡ get_or (get_or (get_or self.now station []) unit_type []) place (pos 0) }
    {
        self.stations[station.place()].types[unit_type.place()].counts[place]
    }

    /// Sets each number to zero.
    fn clear(&mut self)
        ensures { self.new ≡ cleared self.old }
    {
        for place in 0..self.stations.len() {
            self.stations[place].clear();
        }
    }

    /// Adds to the number of a type at a station at a place, if there is one.
    fn change(&mut self, station: StationNo, unit_type: TypeNo, place: usize, change: i64)
        ensures { self.new ≡ changed station unit_type place change self.old }
    {
        if station.place() < self.stations.len() {
            self.stations[station.place()].change(unit_type, place, change);
        }
    }

    /// Adds to the number of each of these types.
    fn change_each(&mut self, station: StationNo, types: &[TypeNo], place: usize, change: i64)
        ensures { self.new ≡ changed_for station place change types.now self.old }
    {
        for i in 0..types.len() {
            self.change(station, types[i], place, change);
        }
    }

    /// Notes what a trip gives to the yard, at the first departure minute at which it is ready.
    #[tactic(auto, unfolding(rules::specs::Day::to_of))]
    fn note_given(&mut self, instance: &Instance, picks: &Picks, trip: TripNo)
        requires picks { ArePicks instance.now picks.now }
        requires trip { trip < length instance.now.trips }
        ensures noted { self.new ≡ with_given instance.now (picked instance.now picks.now) trip self.old }
        ensures few { length (given_with itself instance.now (picked instance.now picks.now) trip) ≤
            MAX_COMPOSITION_UNITS }
    {
        let run = instance.trip(trip);
        let minutes = instance.minutes(run.to);
        let ready = instance.ready_at(trip);
        let given = instance.given_types(picks, trip);
        self.change_each(run.to, given.as_slice(), place_of(minutes, ready), 1);
    }

    /// Notes what a trip takes from the yard, at its departure minute.
    #[tactic(auto, unfolding(rules::specs::Day::from_of, rules::specs::Day::leaves))]
    fn note_taken(&mut self, instance: &Instance, picks: &Picks, trip: TripNo)
        requires picks { ArePicks instance.now picks.now }
        requires trip { trip < length instance.now.trips }
        ensures noted { self.new ≡ with_taken instance.now (picked instance.now picks.now) trip self.old }
        ensures few { length (taken_with itself instance.now (picked instance.now picks.now) trip) ≤
            MAX_COMPOSITION_UNITS }
    {
        let run = instance.trip(trip);
        let minutes = instance.minutes(run.from);
        let taken = instance.taken_types(picks, trip);
        let place = place_of(minutes, run.departure);
        self.change_each(run.from, taken.as_slice(), place, -1);
    }

    /// Adds up the numbers of each station and type, from the units at the start.
    fn add_up(&mut self, instance: &Instance)
        ensures { self.new ≡ all_sums instance.now 0 self.old }
    {
        for place in 0..self.stations.len() {
            self.stations[place].add_up(instance, StationNo(place as u32));
        }
    }

    /// Fills the table with the counts of picks.
    pub fn fill(&mut self, instance: &Instance, picks: &Picks)
        requires picks { ArePicks instance.now picks.now }
        ensures filled { self.new ≡ all_sums instance.now 0
            (with_trips instance.now (picked instance.now picks.now) (length instance.now.trips) (cleared self.old)) }
        ensures few { (t : ℕ) → t < length instance.now.trips → MoveFew instance.now (picked instance.now picks.now) t }
    {
        self.clear();
        for trip in 0..instance.trips() {
            self.note_given(instance, picks, TripNo(trip));
            self.note_taken(instance, picks, TripNo(trip));
        }
        self.add_up(instance);
    }

    /// Fills the table with the counts where nothing is taken or given.
    pub fn fill_with_none(&mut self, instance: &Instance)
        ensures { self.new ≡ all_sums instance.now 0 (cleared self.old) }
    {
        self.clear();
        self.add_up(instance);
    }
}

/// How many of rising minutes are before a minute: the place of the first that is not.
pub fn place_of(minutes: &[Minute], minute: Minute) -> usize
    requires { AllPairs (λ a b. a < b) minutes.now }
    ensures { result ≡ earlier minute minutes.now }
{
    match minutes.binary_search(&minute) {
        Ok(place) => place,
        Err(place) => place,
    }
}
