//! The instance: a day that was accepted, with its units numbered.

ghost use Rattle.std.specs.Prelude.{ℕ, ◌≡◌, ◌<◌, ◌≤◌, ◌*◌, [], ◌∷◌, ◌++◌, length, slice_get, Some, replicate, OnOk};
ghost use Rattle.std.specs.Prelude.{◌+◌, IfOk, IfErr, IfSome};
ghost use Rattle.std.specs.List.{All};
ghost use Rattle.rail_csv.specs.Rows.{AreTypeRows, AreStationRows, AreStockRows, AreTripRows, AreLinkRows};
ghost use Rattle.rail_csv.specs.Rows.{IsWeightsRow};
ghost use Rattle.timetable.specs.Accepted.{IsDay, AreLinks, DoMeet, IsStocked, HaveCompositions, IsSoundDay};
ghost use Rattle.timetable.specs.Admissible.{is_admissible};
ghost use Rattle.timetable.specs.Compositions.{compositions_of, composition_at};
ghost use Rattle.rail_base.specs.Answers.{Unless, Gives};
ghost use Rattle.timetable.specs.Build.{day_of, is_memory};
ghost use Rattle.timetable.specs.Chains.{chains_of, next_in, IsChain, AreChains};
ghost use Rattle.timetable.specs.Day.{units_of, units_in, unit_count, wanted_in, wanted_of, ready_at};
ghost use Rattle.timetable.specs.Handovers.{handovers_of, IsHandover, AreHandovers};
ghost use Rattle.timetable.specs.Links.{incoming, outgoing};
ghost use Rattle.timetable.specs.InstanceParts.{AreInstanceParts};
ghost use Rattle.timetable.specs.Lists.{sum_below};
ghost use Rattle.timetable.specs.Meaning.{IsDayOf};
ghost use Rattle.timetable.specs.Minutes.{minutes_of, AreMinutes};
ghost use Rattle.timetable.specs.NamedEntries.{find_name};
ghost use Rattle.timetable.specs.Refusals.{day_tests};
ghost use Rattle.timetable.specs.Starts.{start_in, start_of};
ghost use Rattle.timetable.specs.Tests.{NoneFailed, IsFirstFailed};
ghost use Rattle.timetable.specs.Turns.{kept_of, IsKept};
ghost use Rattle.timetable.specs.Within.{AreTypes, IsStation, IsUnitAt, IsTripAt, IsLinkAt, AreWeights};

use crate::day::chains::{Chain, Linking, linking_of};
use crate::day::minutes::{Minutes, minutes_of};
use crate::day::records::{Handover, Link, Station, Stock, Trip, Unit, Weights};
use compositions::{Catalogue, UnitTypes};
use day_tables::{AcceptedRows, InstanceRefusal, Tables, accept, find_name, longest_between};
use rail_base::limits::{
    MAX_COMPOSITION_UNITS, MAX_HANDOVERS, MAX_LINKS, MAX_MINUTES, MAX_REALLOCATION, MAX_STATIONS,
    MAX_TRIPS, MAX_UNITS,
};
use rail_base::{CompNo, LinkNo, Minute, NoMemory, StationNo, TripNo, TypeNo, UnitNo};
use std::alloc::Global;
use std::marker::Model;

/// A day that was accepted: its types, stations, stock, trips and links in the order of their tables, and its units,
/// numbered by stock row and then within the row. A contract sees the day.
#[derive(Drop)]
pub struct Instance {
    types: UnitTypes,
    stations: Vec<Station>,
    stock: Vec<Stock>,
    trips: Vec<Trip>,
    links: Vec<Link>,
    weights: Weights,
    units: Vec<Unit>,
    catalogue: Catalogue,
    incoming: Vec<Option<LinkNo>>,
    outgoing: Vec<Option<LinkNo>>,
    chains: Vec<Chain>,
    handovers: Vec<Handover>,
    minutes: Vec<Minutes>,
}

impl Model for Instance {
    ghost use Rattle.timetable.specs.Day.{Day};

    ghost Value = { Day };

    ghost use Rattle.timetable.specs.InstanceParts.{day_in, Holds};

    ghost view = { day_in };

    ghost invariant = { Holds };
}

impl Instance {
    /// The day of tables whose rows keep within the rules of their columns and the limits of rows.
    ///
    /// Refusals, the first test that fails: a repeated name of a type; of a station; a stock row with an unknown
    /// station, an unknown type, or the station and type of an earlier row; more than 2,000 units; more than 1,000
    /// compositions that fit the greatest platform; a trip with a repeated name, an unknown station, one station
    /// twice, an arrival not after its departure, or platforms that no composition fits; a link whose fields do not
    /// fit its kind, with an unknown trip, with a trip that it or an earlier link has named on the same side, with
    /// trips that do not meet at a station, or with a departure before an arrival. `NoMemory` may come at any of
    /// them.
    pub fn build(alloc: Global, tables: Tables) -> Result<Instance, InstanceRefusal>
        requires types { AreTypeRows tables.types }
        requires stations { AreStationRows tables.stations }
        requires stock { AreStockRows tables.stock }
        requires trips { AreTripRows tables.trips }
        requires links { AreLinkRows tables.links }
        requires weights { IsWeightsRow tables.weights }
        // The refusal is the first test that fails, and else the day is that of the tests.
        ensures exact { Gives is_memory result (day_of tables) }
        // The day is that of the tables in their own words.
        ensures meaning { IfOk result (λ instance. IsDayOf tables instance) }
        // Of the tests in their order none failed, and else a refusal is that of the first that did.
        ensures passed { IfOk result (λ _. NoneFailed (day_tests tables)) }
        ensures refusal { IfErr result
            (λ refusal. Unless (is_memory refusal) (IsFirstFailed (day_tests tables) refusal)) }
        ensures limits { IfOk result (λ instance. IsDay instance) }
    {
        let rows = accept(alloc, tables)?;
        let parts = parts_of(alloc, &rows)?;
        Ok(Instance {
            types: rows.types,
            stations: rows.stations,
            stock: rows.stock,
            trips: rows.trips,
            links: rows.links,
            weights: rows.weights,
            units: parts.units,
            catalogue: rows.catalogue,
            incoming: parts.linking.incoming,
            outgoing: parts.linking.outgoing,
            chains: parts.linking.chains,
            handovers: parts.linking.handovers,
            minutes: parts.minutes,
        })
    }

    /// What is known of every instance: its day is one that was accepted, with all that the laws on days ask for. It
    /// does nothing.
    pub fn is_sound(&self)
        ensures { IsSoundDay self.now }
    {
        // A look inside, which says what holds of every instance.
        let _ = self.trips.len();
    }

    /// How many stations there are.
    pub fn stations(&self) -> u32
        ensures value { result ≡ length self.now.stations }
        ensures few { result ≤ MAX_STATIONS }
    {
        self.stations.len() as u32
    }

    /// How many trips there are. Some composition may run on each.
    pub fn trips(&self) -> u32
        ensures value { result ≡ length self.now.trips }
        ensures few { result ≤ MAX_TRIPS }
        ensures sound { IsDay self.now }
        ensures served { HaveCompositions self.now }
    {
        self.trips.len() as u32
    }

    /// How many links there are. No trip arrives for two or departs by two, and the trips of each meet at a station in
    /// time.
    pub fn links(&self) -> u32
        ensures value { result ≡ length self.now.links }
        ensures few { result ≤ MAX_LINKS }
        ensures sound { AreLinks self.now }
        ensures meet { DoMeet self.now }
    {
        self.links.len() as u32
    }

    /// How many units there are. No two stock rows are of one station and one type, so of each type as many units are
    /// at home at a station as `start` tells, by the law `units_are_at_home`; and no row wants more units at the end
    /// than a stock row may say.
    pub fn units(&self) -> u32
        ensures value { result ≡ unit_count self.now }
        ensures few { result ≤ MAX_UNITS }
        ensures once { IsStocked self.now }
    {
        self.units.len() as u32
    }

    /// The types of the units: at most six, none with a number over its limit.
    pub fn types(&self) -> &UnitTypes
        ensures value { result.now ≡ self.now.types }
        ensures within { AreTypes self.now.types }
    {
        &self.types
    }

    /// The compositions that fit the greatest platform of the stations; none where there is no station.
    #[tactic(auto, unfolding(day_tables::specs::Compositions::greatest_platform))]
    pub fn catalogue(&self) -> &Catalogue
        ensures { result.now ≡ compositions_of self.now }
    {
        &self.catalogue
    }

    /// Whether the composition of this number may run on the trip: its metres fit the platforms of both stations. The
    /// trip is below `trips`, the composition below the catalogue's `len`.
    #[tactic(auto, unfolding(day_tables::specs::Compositions::greatest_platform, rules::specs::Admissible::is_admissible))]
    pub fn admits(&self, trip: TripNo, comp: CompNo) -> bool
        requires trip { trip < length self.now.trips }
        requires comp { comp < length (compositions_of self.now) }
        ensures { result ≡ is_admissible self.now trip (composition_at self.now comp) }
    {
        let trip = &self.trips[trip.place()];
        let longest = longest_between(&self.stations, trip.from, trip.to);
        self.catalogue.get(comp).fits(&self.types, longest)
    }

    /// The weights of the cost, none over its limit.
    pub fn weights(&self) -> Weights
        ensures value { result ≡ self.now.weights }
        ensures within { AreWeights result }
    {
        self.weights
    }

    /// The station of this number, which is below `stations`. Its platform and its reallocation time are not over their
    /// limits.
    pub fn station(&self, station: StationNo) -> &Station
        requires { station < length self.now.stations }
        ensures value { slice_get self.now.stations station ≡ Some result.now }
        ensures within { IsStation result.now }
    {
        &self.stations[station.place()]
    }

    /// The trip of this number, which is below `trips`. It leaves before it arrives, within the two days, its
    /// stations are there, and its kilometres and its demand are not over their limits.
    pub fn trip(&self, trip: TripNo) -> &Trip
        requires { trip < length self.now.trips }
        ensures value { slice_get self.now.trips trip ≡ Some result.now }
        ensures within { IsTripAt (length self.now.stations) result.now }
    {
        &self.trips[trip.place()]
    }

    /// The number of the station with this name, the first that has it; nothing where no station has it.
    pub fn find_station(&self, name: &str) -> Option<StationNo>
        ensures value { result ≡ find_name (λ s. s.name) self.now.stations name.now }
        ensures within { IfSome result (λ s. s < length self.now.stations) }
    {
        let Some(place) = find_name(&self.stations, name) else {
            return None;
        };
        Some(StationNo(place as u32))
    }

    /// The number of the trip with this name, the first that has it; nothing where no trip has it.
    pub fn find_trip(&self, name: &str) -> Option<TripNo>
        ensures value { result ≡ find_name (λ t. t.name) self.now.trips name.now }
        ensures within { IfSome result (λ t. t < length self.now.trips) }
    {
        let Some(place) = find_name(&self.trips, name) else {
            return None;
        };
        Some(TripNo(place as u32))
    }

    /// The minute from which a unit that this trip gives to the yard where it arrives may be taken there: the trip's
    /// arrival and the station's reallocation time later. The trip is below `trips`.
    #[tactic(auto, unfolding(rules::specs::Day::arrives, rules::specs::Day::to_of, rules::specs::Day::reallocation_of))]
    pub fn ready_at(&self, trip: TripNo) -> Minute
        requires { trip < length self.now.trips }
        ensures value { result ≡ ready_at self.now trip }
        ensures range { result < MAX_MINUTES + MAX_REALLOCATION }
    {
        let trip = self.trip(trip);
        let station = self.station(trip.to);
        Minute(trip.arrival.0 + station.reallocation as u16)
    }

    /// The link of this number, which is below `links`. Its trips are there and meet at one station, and none departs
    /// before one that it goes on from arrives.
    pub fn link(&self, link: LinkNo) -> &Link
        requires { link < length self.now.links }
        ensures value { slice_get self.now.links link ≡ Some result.now }
        ensures within { IsLinkAt self.now result.now }
    {
        &self.links[link.place()]
    }

    /// The link that leads into the trip, which is below `trips`: nothing where no link does; then the trip takes all
    /// its units from the yard. The number is that of a link.
    pub fn incoming(&self, trip: TripNo) -> Option<LinkNo>
        requires { trip < length self.now.trips }
        ensures value { result ≡ incoming self.now trip }
        ensures within { IfSome result (λ link. link < length self.now.links) }
    {
        self.incoming[trip.place()]
    }

    /// The link that leads on from the trip, which is below `trips`: nothing where no link does; then the trip gives
    /// all its units to the yard. The number is that of a link.
    pub fn outgoing(&self, trip: TripNo) -> Option<LinkNo>
        requires { trip < length self.now.trips }
        ensures value { result ≡ outgoing self.now trip }
        ensures within { IfSome result (λ link. link < length self.now.links) }
    {
        self.outgoing[trip.place()]
    }

    /// How many units the turn of this number keeps, by the types of the arriving list after a reversal and of the
    /// departing list, at most six each: the length of the longest list of types that fits both of its ends, and
    /// nothing where none fits, or where the link is no turn. The link is below `links`.
    pub fn kept(&self, link: LinkNo, arriving: &[TypeNo], departing: &[TypeNo]) -> Option<u32>
        requires link { link < length self.now.links }
        requires arriving { length arriving.now ≤ MAX_COMPOSITION_UNITS }
        requires departing { length departing.now ≤ MAX_COMPOSITION_UNITS }
        ensures number { IfSome (slice_get self.now.links link)
            (λ link. result ≡ kept_of link.kind arriving.now departing.now) }
        ensures meaning { IfSome (slice_get self.now.links link)
            (λ link. IsKept link.kind arriving.now departing.now result) }
    {
        as_number(self.link(link).kind.kept(arriving, departing))
    }

    /// How many chains there are. Where a link goes on from one trip to another the two are neighbours in a chain; of
    /// the two arriving trips of a join that is the first, and of the two departing trips of a split likewise. So each
    /// trip is in exactly one chain, perhaps alone.
    pub fn chains(&self) -> u32
        ensures value { result ≡ length (chains_of self.now) }
        ensures few { result ≤ MAX_TRIPS }
        ensures whole { AreChains self.now (chains_of self.now) }
    {
        self.chains.len() as u32
    }

    /// The trips of the chain of this number, which is below `chains`, in the order in which they run. A link leads
    /// from each trip to the next. No link leads the chain to its first trip or on from its last; the first may still
    /// be the second trip of a split, and the last the second trip of a join. The numbers of chains rise with those of
    /// their first trips.
    pub fn chain(&self, chain: u32) -> &[TripNo]
        requires { chain < length (chains_of self.now) }
        ensures value { slice_get (chains_of self.now) chain ≡ Some result.now }
        ensures whole { IsChain self.now result.now }
        ensures within { All (λ trip. trip < length self.now.trips) result.now }
    {
        self.chains[chain as usize].items()
    }

    /// How many hand-overs there are: one for each join and each split. Each of them takes up three of the ends of
    /// trips, of which a trip has two, and no end is taken up twice.
    pub fn handovers(&self) -> u32
        ensures value { result ≡ length (handovers_of self.now) }
        ensures few { result ≤ MAX_HANDOVERS }
        ensures ends { 3 * result ≤ 2 * length self.now.trips }
        ensures whole { AreHandovers self.now (handovers_of self.now) }
    {
        self.handovers.len() as u32
    }

    /// The hand-over of this number, which is below `handovers`. Hand-overs are numbered in the order of the links.
    /// Its link is a join or a split of the day, with this second trip.
    pub fn handover(&self, handover: u32) -> Handover
        requires { handover < length (handovers_of self.now) }
        ensures value { slice_get (handovers_of self.now) handover ≡ Some result }
        ensures of_link { IsHandover self.now.links result }
        ensures within { result.second < length self.now.trips }
    {
        self.handovers[handover as usize]
    }

    /// The minutes at which trips leave the station of this number, which is below `stations`: each once, in rising
    /// order, and within the two days. All stations together have no more of them than a day may have trips, since a
    /// trip leaves one station.
    pub fn minutes(&self, station: StationNo) -> &[Minute]
        requires { station < length self.now.stations }
        ensures value { result.now ≡ minutes_of self.now station }
        ensures whole { AreMinutes self.now station result.now }
        ensures few { length result.now ≤ MAX_TRIPS }
        ensures together { (stations : ℕ) → sum_below (λ s. length (minutes_of self.now s)) stations ≤ MAX_TRIPS }
        ensures within { All (λ minute. minute < MAX_MINUTES) result.now }
    {
        self.minutes[station.place()].items()
    }

    /// The unit of this number, which is below `units`. Its type and its home are there.
    pub fn unit(&self, unit: UnitNo) -> Unit
        requires { unit < unit_count self.now }
        ensures value { slice_get (units_of self.now) unit ≡ Some result }
        ensures within { IsUnitAt (length self.now.stations) (length self.now.types) result }
    {
        self.units[unit.place()]
    }

    /// How many units of a type stand at a station at the start of the day: none where no stock row says it. No
    /// station has two stock rows of one type.
    #[tactic(auto, unfolding(crate::specs::Starts::start_of))]
    pub fn start(&self, station: StationNo, unit_type: TypeNo) -> u32
        ensures value { result ≡ start_of self.now station unit_type }
        ensures once { IsStocked self.now }
    {
        start_in(&self.stock, station, unit_type)
    }

    /// How many units of a type are wanted at a station at the end of the day: none where no stock row says it.
    #[tactic(auto, unfolding(rules::specs::Day::wanted_of))]
    pub fn end(&self, station: StationNo, unit_type: TypeNo) -> u32
        ensures { result ≡ wanted_of self.now station unit_type }
    {
        wanted_in(&self.stock, station, unit_type)
    }
}

/// The same number, if there is one.
fn as_number(kept: Option<usize>) -> Option<u32>
    requires { IfSome kept (λ n. n ≤ MAX_COMPOSITION_UNITS) }
    ensures { result ≡ kept }
{
    match kept {
        Some(kept) => Some(kept as u32),
        None => None,
    }
}

/// Adds the units of a stock row.
fn push_units(units: &mut Vec<Unit>, row: Stock) -> Result<(), NoMemory>
    ensures { OnOk result
        (units.new.items ≡ units.old.items
        ++ replicate row.start (record { unit_type = row.unit_type; home = row.station })) }
{
    for _ in 0..row.start {
        units.push(Unit {
            unit_type: row.unit_type,
            home: row.station,
        })?;
    }
    Ok(())
}

/// The units of all stock rows, by row and then within the row.
fn units_of(alloc: Global, stock: &[Stock]) -> Result<Vec<Unit>, NoMemory>
    ensures { IfOk result (λ units. units.items ≡ units_in stock.now) }
{
    let mut units = Vec::new(alloc);
    for row in stock {
        push_units(&mut units, *row)?;
    }
    Ok(units)
}

/// What an instance holds beside the entries of its tables: its units, what its links give, and its departure minutes.
#[derive(Drop)]
struct InstanceParts {
    units: Vec<Unit>,
    linking: Linking,
    minutes: Vec<Minutes>,
}

/// The parts of the instance of these rows.
fn parts_of(alloc: Global, rows: &AcceptedRows) -> Result<InstanceParts, NoMemory>
    requires stations { length rows.now.stations.items ≤ MAX_STATIONS }
    requires trips { length rows.now.trips.items ≤ MAX_TRIPS }
    requires links { length rows.now.links.items ≤ MAX_LINKS }
    requires known { (t b : ℕ) → next_in rows.now.links.items t ≡ Some b → b < length rows.now.trips.items }
    ensures { IfOk result (λ parts. AreInstanceParts parts rows.now) }
{
    let units = units_of(alloc, &rows.stock)?;
    let trip_count = rows.trips.len() as u32;
    let linking = linking_of(alloc, &rows.links, trip_count)?;
    let station_count = rows.stations.len() as u32;
    let minutes = minutes_of(alloc, &rows.trips, station_count)?;
    Ok(InstanceParts {
        units,
        linking,
        minutes,
    })
}

/// The start of the stock row of a station and a type, and 0 where there is none.
fn start_in(stock: &[Stock], station: StationNo, unit_type: TypeNo) -> u32
    ensures { result ≡ start_in stock.now station unit_type }
{
    for row in stock {
        if row.station == station && row.unit_type == unit_type {
            return row.start;
        }
    }
    0
}

/// The end of the stock row of a station and a type, and 0 where there is none.
fn wanted_in(stock: &[Stock], station: StationNo, unit_type: TypeNo) -> u32
    ensures { result ≡ wanted_in stock.now station unit_type }
{
    for row in stock {
        if row.station == station && row.unit_type == unit_type {
            return row.end;
        }
    }
    0
}
