//! The naming of units: which units run on which trip, where a composition is picked for each.

ghost use Rattle.std.specs.Prelude.{ℕ, ◌≡◌, ◌<◌, ◌≤◌, [], Option, length, replicate, IfOk, OnOk};
ghost use Rattle.timetable.specs.Day.{leaves, to_of, ready_at};
ghost use Rattle.timetable.specs.Links.{list_of};
ghost use Rattle.timetable.specs.Running.{AreUnits};
ghost use Rattle.unit_duties.specs.Trains.{given_units};
ghost use Rattle.unit_duties.specs.Naming.{CanBeNamed, IsNext, IsFetched};
ghost use Rattle.unit_duties.specs.Yards.{ArePutIn, AreLeft};
ghost use Rattle.inventory.specs.NamedUnits.{InYard, named_from};
ghost use Rattle.timetable.specs.Picks.{ArePicks, picked};
ghost use Rattle.unit_duties.specs.FetchedUnits.{CanFetch, HasFetched};

use crate::order::{departure, origin, trips_in_order};
use crate::trains::{given_units, put_together};
use crate::yards::{Waiting, take, units_at_home};
use arrayvec::ArrayVec;
use rail_base::limits::MAX_COMPOSITION_UNITS;
use rail_base::{NoMemory, StationNo, TripNo, UnitNo};
use rail_csv::UnitList;
use std::alloc::Global;
use std::collections::BTreeSet;
use timetable::{Instance, NamedPlan, Picks};

/// What a naming is made of: the day, the compositions that are picked, and a plan whose trips that leave before a
/// minute keep their units.
#[derive(Clone, Copy)]
pub(crate) struct Naming<'a> {
    pub(crate) instance: &'a Instance,
    pub(crate) picks: &'a Picks,
    pub(crate) minute: u32,
    pub(crate) earlier: &'a NamedPlan,
}

/// The plan in which the trips that leave before the minute keep their units, and the others are named by the rule.
/// Trips are named by departure minute and then by trip number. Units that stay in a train keep their places; each
/// other place, front to rear, gets the unit of its type that was ready earliest in the yard of the station, and of
/// those the one with the smallest number.
pub(crate) fn named_from(alloc: Global, naming: Naming<'_>) -> Result<NamedPlan, NoMemory>
    requires can { CanBeNamed naming.instance.now naming.picks.now naming.minute naming.earlier.now }
    ensures { IfOk result (λ plan. plan
        ≡ named_from naming.entry.instance.now (picked naming.entry.instance.now naming.entry.picks.now)
        naming.entry.minute naming.entry.earlier.now) }
{
    let instance = naming.instance;
    instance.is_sound();
    let order = trips_in_order(alloc, instance)?;
    let mut yards = units_at_home(alloc, instance)?;
    let mut lists = empty_lists(alloc, instance.trips())?;
    for trip in &order {
        let units = next_units(alloc, naming, &mut yards, &lists, *trip)?;
        give(instance, naming.picks, &mut yards, *trip, &units)?;
        lists[trip.place()] = UnitList::of(units);
    }
    Ok(NamedPlan::of(lists))
}

/// The units of the trip that is next in order, which wait in no yard then: those of the plan where it leaves before
/// the minute, and else those that the rule names.
fn next_units(
    alloc: Global,
    naming: Naming<'_>,
    yards: &mut BTreeSet<Waiting>,
    lists: &[UnitList],
    trip: TripNo,
) -> Result<Vec<UnitNo>, NoMemory>
    requires picks { ArePicks naming.instance.now naming.picks.now }
    requires lists { length lists.now ≡ length naming.instance.now.trips }
    requires trip { trip < length naming.instance.now.trips }
    requires known { leaves naming.instance.now trip < naming.minute → trip < length naming.earlier.now }
    ensures { IfOk result (λ units. IsNext naming.entry.instance.now naming.entry.picks.now naming.entry.minute
        naming.entry.earlier.now lists.now trip yards.old yards.new units.items) }
{
    if departure(naming.instance, trip) < naming.minute {
        return keep(alloc, naming.earlier, yards, trip);
    }
    fetch_all(alloc, naming, yards, lists, trip)
}

/// The units that a trip has in a plan; they wait in no yard then.
fn keep(
    alloc: Global,
    plan: &NamedPlan,
    yards: &mut BTreeSet<Waiting>,
    trip: TripNo,
) -> Result<Vec<UnitNo>, NoMemory>
    requires { trip < length plan.now }
    ensures units { IfOk result (λ units. units.items ≡ list_of plan.now trip) }
    ensures left { IfOk result (λ units. AreLeft units.items yards.old yards.new) }
{
    let units = plan.units(trip);
    yards.retain(|waiting| !units.contains(&waiting.unit));
    Ok(units.to_vec(alloc)?)
}

/// The units of a trip, front to rear: those that come with its trains, and those that it takes from the yard.
fn fetch_all(
    alloc: Global,
    naming: Naming<'_>,
    yards: &mut BTreeSet<Waiting>,
    lists: &[UnitList],
    trip: TripNo,
) -> Result<Vec<UnitNo>, NoMemory>
    requires picks { ArePicks naming.instance.now naming.picks.now }
    requires lists { length lists.now ≡ length naming.instance.now.trips }
    requires trip { trip < length naming.instance.now.trips }
    ensures { IfOk result (λ units. IsFetched naming.entry.instance.now naming.entry.picks.now lists.now trip
        yards.old yards.new units.items) }
{
    let fetched = fetch(naming.instance, naming.picks, yards, trip);
    put_together(
        alloc,
        naming.instance,
        naming.picks,
        lists,
        trip,
        fetched.as_slice(),
    )
}

/// For each trip a list of no units.
fn empty_lists(alloc: Global, trips: u32) -> Result<Vec<UnitList>, NoMemory>
    ensures { IfOk result (λ lists. lists.items ≡ replicate trips []) }
{
    let mut lists = Vec::new(alloc);
    for _ in 0..trips {
        lists.push(UnitList::of(Vec::new(alloc)))?;
    }
    Ok(lists)
}

/// Takes the units for the places of a trip that are filled from the yard, front to rear. Where one is ready for each
/// place, they are the units that the rule names.
fn fetch(
    instance: &Instance,
    picks: &Picks,
    yards: &mut BTreeSet<Waiting>,
    trip: TripNo,
) -> ArrayVec<UnitNo, MAX_COMPOSITION_UNITS>
    requires picks { ArePicks instance.now picks.now }
    requires trip { trip < length instance.now.trips }
    ensures { (stands : ℕ → Option InYard) →
        CanFetch instance.now picks.now trip stands yards.old →
        HasFetched instance.now picks.now trip stands yards.new result.items }
{
    let types = instance.taken_types(picks, trip);
    let station = origin(instance, trip);
    let minute = departure(instance, trip);
    let mut fetched = ArrayVec::new();
    for unit_type in types.as_slice() {
        if let Some(unit) = take(yards, station, *unit_type, minute) {
            fetched.push(unit);
        }
    }
    fetched
}

/// Gives the units that a trip does not keep to the yard where it arrives, ready once the reallocation time is over.
fn give(
    instance: &Instance,
    picks: &Picks,
    yards: &mut BTreeSet<Waiting>,
    trip: TripNo,
    units: &[UnitNo],
) -> Result<(), NoMemory>
    requires picks { ArePicks instance.now picks.now }
    requires trip { trip < length instance.now.trips }
    requires few { length units.now ≤ MAX_COMPOSITION_UNITS }
    requires known { AreUnits instance.now (given_units instance.now picks.now trip units.now) }
    ensures { OnOk result (ArePutIn instance.now
        (to_of instance.now trip) (ready_at instance.now trip)
        (given_units instance.now picks.now trip units.now) yards.old yards.new) }
{
    let given = given_units(instance, picks, trip, units);
    let (station, ready) = goal_of(instance, trip);
    for unit in given.as_slice() {
        yards.insert(Waiting {
            station,
            unit_type: instance.unit(*unit).unit_type,
            ready,
            unit: *unit,
        })?;
    }
    Ok(())
}

/// The station that a trip goes to, and the minute from which a unit that it gives there may be taken.
#[tactic(auto, unfolding(rules::specs::Day::to_of))]
fn goal_of(instance: &Instance, trip: TripNo) -> (StationNo, u32)
    requires { trip < length instance.now.trips }
    ensures station { result.0 ≡ to_of instance.now trip }
    ensures ready { result.1 ≡ ready_at instance.now trip }
{
    let ready = instance.ready_at(trip).minutes();
    (instance.trip(trip).to, ready)
}
