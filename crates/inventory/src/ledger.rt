//! The ledger: the counts of the yards, for the compositions that are picked.

ghost use Rattle.std.specs.Prelude.{◌≡◌, ◌<◌, length, IfOk, []};
ghost use Rattle.timetable.specs.Minutes.{minutes_of};
ghost use Rattle.timetable.specs.Picks.{ArePicks, picked};
ghost use Rattle.inventory.specs.Counts.{count_of_place, end_count_of};
ghost use Rattle.inventory.specs.FirstIn.{ShortAt, ShortIn, ShortOn, UnbalancedAt, UnbalancedIn, UnbalancedOn};
ghost use Rattle.inventory.specs.Loaded.{Loaded};
ghost use Rattle.inventory.specs.StockFaults.{IsFirstFault};

use crate::count_table::CountTable;
use crate::faults::StockFault;
use rail_base::{NoMemory, StationNo, TypeNo};
use std::alloc::Global;
use std::marker::Model;
use timetable::{Instance, Picks};

/// The counts of the yards of a day, for the compositions that were loaded: for each station and type, how many units
/// stand there after each departure minute of the station, and at the end of the day. A contract sees the day, and the
/// types of the compositions, trip by trip. Before a load these are none, so that nothing is taken or given.
#[derive(Drop)]
pub struct Ledger<'a> {
    instance: &'a Instance,
    is_loaded: bool,
    picks: Picks,
    counts: CountTable,
}

impl<'a> Model for Ledger<'a> {
    ghost use Rattle.inventory.specs.Loaded.{Loaded, lists_in};
    ghost use Rattle.inventory.specs.Counted.{IsCountTable};
    ghost use Rattle.timetable.specs.Accepted.{IsDay};
    ghost use Rattle.std.specs.Prelude.{◌≡◌, length};

    ghost Value = { Loaded };

    ghost view = { λ a. record { day = a.instance.now; lists = lists_in a.instance.now a.is_loaded a.picks } };

    ghost invariant = { λ a.
        (length a.picks ≡ length a.instance.now.trips)
        × IsDay a.instance.now
        × IsCountTable a.instance.now (lists_in a.instance.now a.is_loaded a.picks) a.counts };
}

impl<'a> Ledger<'a> {
    /// The ledger of a day with nothing taken or given. It takes all the room that it needs; the error is want of
    /// memory.
    pub fn new(alloc: Global, instance: &'a Instance) -> Result<Ledger<'a>, NoMemory>
        ensures { IfOk result (λ ledger. ledger ≡ record { day = instance.now; lists = [] }) }
    {
        let picks = Picks::new(alloc, instance.trips())?;
        let mut counts = CountTable::new(alloc, instance)?;
        counts.fill_with_none(instance);
        Ok(Ledger {
            instance,
            is_loaded: false,
            picks,
            counts,
        })
    }

    /// Loads the compositions that are picked for the trips, in place of those that were loaded before. There is one
    /// pick for each trip, a composition of the catalogue. Where the rule of a turn is broken, all of its two lists is
    /// given and taken. It takes no memory. Its time, of which no clause speaks, grows with the units of all trains,
    /// the number of counts, and for each station and type the rows of the stock.
    pub fn load(&mut self, picks: &Picks)
        requires { ArePicks self.old.day picks.now }
        ensures { self.new ≡ record { day = self.old.day; lists = picked self.old.day picks.now } }
    {
        self.picks.copy_from(picks);
        self.is_loaded = true;
        self.counts.fill(self.instance, picks);
    }

    /// How many units of a type stand at a station after the departures of a minute: those at the start and those that
    /// were given there and are ready at that minute, less those that were taken there at that minute or earlier. It is
    /// below zero where more are taken than there are. The place is that of the minute among the station's departure
    /// minutes.
    pub fn count_after(&self, station: StationNo, unit_type: TypeNo, place: u32) -> i64
        requires station { station < length self.now.day.stations }
        requires unit_type { unit_type < length self.now.day.types }
        requires place { place < length (minutes_of self.now.day station) }
        ensures { result ≡ count_of_place self.now.day self.now.lists station unit_type place }
    {
        self.counts.get(station, unit_type, place as usize)
    }

    /// How many units of a type stand at a station at the end of the day: those at the start and all that are given
    /// there, less all that are taken there.
    pub fn end(&self, station: StationNo, unit_type: TypeNo) -> i64
        requires station { station < length self.now.day.stations }
        requires unit_type { unit_type < length self.now.day.types }
        ensures { result ≡ end_count_of self.now.day self.now.lists station unit_type }
    {
        let end = self.instance.minutes(station).len();
        self.counts.get(station, unit_type, end)
    }

    /// The first fault: the first count below zero, by station, type and minute; or, where none is, the first end that
    /// is not the one that is wanted, by station and type; or nothing, where the yards serve all trips and every end is
    /// met.
    pub fn first_fault(&self) -> Option<StockFault>
        ensures { IsFirstFault self.now.day self.now.lists result }
    {
        match self.first_short() {
            Some(fault) => Some(fault),
            None => self.first_unbalanced(),
        }
    }

    /// The first count below zero.
    fn first_short(&self) -> Option<StockFault>
        ensures { ShortOn self.now.day self.now.lists result }
    {
        for station in 0..self.instance.stations() {
            if let Some(fault) = self.short_in(StationNo(station)) {
                return Some(fault);
            }
        }
        None
    }

    /// The first count below zero at a station.
    fn short_in(&self, station: StationNo) -> Option<StockFault>
        requires { station < length self.now.day.stations }
        ensures { ShortIn self.now.day self.now.lists station result }
    {
        for unit_type in 0..self.instance.types().len() {
            if let Some(fault) = self.short_at(station, TypeNo(unit_type)) {
                return Some(fault);
            }
        }
        None
    }

    /// The first count below zero of a type at a station.
    fn short_at(&self, station: StationNo, unit_type: TypeNo) -> Option<StockFault>
        requires station { station < length self.now.day.stations }
        requires unit_type { unit_type < length self.now.day.types }
        ensures { ShortAt self.now.day self.now.lists station unit_type result }
    {
        for place in 0..self.instance.minutes(station).len() as u32 {
            let count = self.count_after(station, unit_type, place);
            if count < 0 {
                return Some(StockFault::Short {
                    station,
                    unit_type,
                    place,
                    count,
                });
            }
        }
        None
    }

    /// The first end that is not the one that is wanted.
    fn first_unbalanced(&self) -> Option<StockFault>
        ensures { UnbalancedOn self.now.day self.now.lists result }
    {
        for station in 0..self.instance.stations() {
            if let Some(fault) = self.unbalanced_in(StationNo(station)) {
                return Some(fault);
            }
        }
        None
    }

    /// The first end at a station that is not the one that is wanted.
    fn unbalanced_in(&self, station: StationNo) -> Option<StockFault>
        requires { station < length self.now.day.stations }
        ensures { UnbalancedIn self.now.day self.now.lists station result }
    {
        for unit_type in 0..self.instance.types().len() {
            if let Some(fault) = self.unbalanced_at(station, TypeNo(unit_type)) {
                return Some(fault);
            }
        }
        None
    }

    /// The end of a type at a station, if it is not the one that is wanted.
    fn unbalanced_at(&self, station: StationNo, unit_type: TypeNo) -> Option<StockFault>
        requires station { station < length self.now.day.stations }
        requires unit_type { unit_type < length self.now.day.types }
        ensures { UnbalancedAt self.now.day self.now.lists station unit_type result }
    {
        let count = self.end(station, unit_type);
        if count == i64::from(self.instance.end(station, unit_type)) {
            return None;
        }
        Some(StockFault::Balance {
            station,
            unit_type,
            count,
        })
    }
}
