//! The prices under multipliers, by trip, by link, and by type or composition.
//!
//! They are made once for each list of multipliers, so that a price is then looked up. Each multiplier of a station and
//! type is put at its place among the departure minutes of the station, or after them, and these are added up from the
//! last to the first: the sum at a minute is the price of a unit there. So no trip is looked at for each multiplier.
//! The time, of which no clause speaks, grows with the multipliers times the stations, with the minutes and the trips
//! times the types, and, where there were multipliers at hand-overs before, which are cleared first, with the trips and
//! the links times the compositions.

ghost use Rattle.std.specs.Prelude.{◌≡◌, ◌<◌, ◌≤◌, ◌*◌, [], false, length, map, fold, IfOk, unsigned_abs};
ghost use Rattle.timetable.specs.Indices.{IsPlace, lambdas_of, places_of};
ghost use Rattle.branch_tree.specs.Entries.{AreMultipliers, DoFit};
ghost use Rattle.price_bound.specs.PriceTables.{AreSized, ArePrices, cleared, cleared_table, looked_up, with_entry};
ghost use Rattle.price_bound.specs.PriceTables.{with_place, without_handovers};
ghost use Rattle.price_bound.specs.CellSizes.{IsSmall, most_number};
ghost use Rattle.price_bound.specs.Regrouped.{constant_by, constant_of};
ghost use Rattle.price_bound.specs.YardPrices.{by_place};
ghost use Rattle.price_bound.specs.YardTables.{CanLook, later_sums};

use crate::amounts::AmountTable;
use crate::constants::constant_by;
use crate::priced_costs::added;
use crate::yard_places::{YardPlace, given_places, look_up, taken_places};
use crate::yard_tables::YardTable;
use branch_tree::{Entry, Multipliers};
use rail_base::limits::{MAX_ENTRIES, MAX_MULTIPLIER};
use rail_base::{Money, NoMemory};
use std::alloc::Global;
use timetable::{Instance, Place};

/// The prices under multipliers.
#[derive(Drop)]
pub(crate) struct PriceTables {
    /// For each trip and type the price of a unit that the trip takes.
    pub takes: AmountTable,
    /// For each trip and type the price of a unit that the trip gives.
    pub gives: AmountTable,
    /// For each trip and composition the multipliers of the composition at the hand-overs to the trip.
    pub seconds: AmountTable,
    /// For each link and composition the multiplier of the composition at the hand-over of the link.
    pub parts: AmountTable,
    /// Whether multipliers at hand-overs are added to these two.
    has_handovers: bool,
    /// For each station and type the price of a unit at each departure minute of the station, and later.
    yards: YardTable,
    /// For each trip where it takes units.
    taken_at: Vec<YardPlace>,
    /// For each trip where it gives units.
    given_at: Vec<YardPlace>,
}

impl PriceTables {
    /// Tables of zeros, with the sizes of a day. The error is want of memory.
    pub(crate) fn new(alloc: Global, instance: &Instance) -> Result<PriceTables, NoMemory>
        ensures { IfOk result (λ tables. AreSized instance.now tables) }
    {
        let trips = instance.trips() as usize;
        let types = instance.types().len() as usize;
        let comps = instance.catalogue().len() as usize;
        let taken_at = taken_places(alloc, instance)?;
        let given_at = given_places(alloc, instance)?;
        let yards = YardTable::new(alloc, instance)?;
        let takes = AmountTable::new(alloc, trips, types)?;
        let gives = AmountTable::new(alloc, trips, types)?;
        let seconds = AmountTable::new(alloc, trips, comps)?;
        let parts = AmountTable::new(alloc, instance.links() as usize, comps)?;
        Ok(PriceTables {
            takes,
            gives,
            seconds,
            parts,
            has_handovers: false,
            yards,
            taken_at,
            given_at,
        })
    }

    /// Puts the prices under multipliers in place of those that were there. The indices of the multipliers are the
    /// day's. It answers what the multipliers add whatever the picks, and takes no memory.
    pub(crate) fn fill(&mut self, instance: &Instance, multipliers: &Multipliers) -> Money
        requires fit { DoFit (length (places_of instance.now)) (length (lambdas_of instance.now)) multipliers.now }
        requires sized { AreSized instance.now self.old }
        ensures prices { ArePrices instance.now multipliers.now self.new }
        ensures value { result.0 ≡ constant_of instance.now multipliers.now }
        ensures small { IsSmall (MAX_ENTRIES * (MAX_MULTIPLIER * most_number)) result.0 }
    {
        self.clear();
        let constant = self.add_all(instance, multipliers);
        self.add_up(multipliers);
        self.look_up_trips();
        constant
    }

    /// Sets to zero what multipliers are added to.
    fn clear(&mut self)
        requires seconds { self.old.has_handovers ≡ false → cleared_table self.old.seconds ≡ self.old.seconds }
        requires parts { self.old.has_handovers ≡ false → cleared_table self.old.parts ≡ self.old.parts }
        ensures { self.new ≡ cleared self.old }
    {
        self.yards.clear();
        self.clear_handovers();
    }

    /// Sets to zero what multipliers at hand-overs are added to, unless it is.
    fn clear_handovers(&mut self)
        requires seconds { self.old.has_handovers ≡ false → cleared_table self.old.seconds ≡ self.old.seconds }
        requires parts { self.old.has_handovers ≡ false → cleared_table self.old.parts ≡ self.old.parts }
        ensures { self.new ≡ without_handovers self.old }
    {
        if !self.has_handovers {
            return;
        }
        self.seconds.clear();
        self.parts.clear();
        self.has_handovers = false;
    }

    /// Adds all multipliers, and answers what they add whatever the picks. Their indices are the day's.
    fn add_all(&mut self, instance: &Instance, multipliers: &Multipliers) -> Money
        requires { DoFit (length (places_of instance.now)) (length (lambdas_of instance.now)) multipliers.now }
        ensures added { self.new ≡ fold (with_entry instance.now) self.old multipliers.now }
        ensures multipliers { AreMultipliers multipliers.now }
        ensures value { result.0 ≡ constant_of instance.now multipliers.now }
        ensures small { IsSmall (MAX_ENTRIES * (MAX_MULTIPLIER * most_number)) result.0 }
    {
        prove!(multipliers.entries().len() <= MAX_ENTRIES);
        let entries = multipliers.entries();
        let mut sum = Money(0);
        for place in 0..entries.len() {
            let amount = self.add(instance, entries[place]);
            sum = added(sum, amount);
        }
        sum
    }

    /// Adds a multiplier, whose index is the day's, and answers what it adds whatever the picks: its place is found
    /// once for both.
    fn add(&mut self, instance: &Instance, entry: Entry) -> Money
        requires index { entry.index < length (places_of instance.now) }
        requires size { unsigned_abs entry.value ≤ MAX_MULTIPLIER }
        ensures added { self.new ≡ with_entry instance.now self.old entry }
        ensures value { result.0 ≡ by_place instance.now (constant_by instance.now) entry }
        ensures small { IsSmall (MAX_MULTIPLIER * most_number) result.0 }
    {
        let place = instance.place(entry.index);
        self.add_at(instance, &place, entry.value);
        constant_by(instance, &place, entry.value)
    }

    /// Adds the multiplier of a place.
    fn add_at(&mut self, instance: &Instance, place: &Place, value: i64)
        requires { IsPlace instance.now place.now }
        ensures { self.new ≡ with_place instance.now place.now value self.old }
    {
        match *place {
            Place::Lambda {
                station,
                unit_type,
                place,
            } => self.yards.add(station, unit_type, place as usize, value),
            Place::Mu { station, unit_type } => {
                let later = instance.minutes(station).len();
                self.yards.add(station, unit_type, later, value);
            }
            Place::Sigma { handover, comp } => {
                let handover = instance.handover(handover);
                self.seconds
                    .add(handover.second.place(), comp.place(), value);
                self.parts.add(handover.link.place(), comp.place(), value);
                self.has_handovers = true;
            }
        }
    }

    /// Adds up the amounts of the yards, from the last minute to the first. Without multipliers they are 0 and stay so.
    fn add_up(&mut self, multipliers: &Multipliers)
        requires { multipliers.now ≡ [] → map (map later_sums) self.old.yards ≡ self.old.yards }
        ensures { self.new ≡ record self.old { yards = map (map later_sums) self.old.yards } }
    {
        if multipliers.entries().is_empty() {
            return;
        }
        self.yards.add_later();
    }

    /// Looks up the prices of what trips take and give, in the prices of the yards.
    fn look_up_trips(&mut self)
        requires taken { CanLook self.old.yards self.old.taken_at.items self.old.takes }
        requires given { CanLook self.old.yards self.old.given_at.items self.old.gives }
        ensures { self.new ≡ looked_up self.old }
    {
        look_up(&self.yards, &self.taken_at, &mut self.takes);
        look_up(&self.yards, &self.given_at, &mut self.gives);
    }
}
