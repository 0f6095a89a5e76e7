//! What becomes of the units of a train at the links of its trip, and what it takes from the yard, read off the types
//! of picks.

ghost use Rattle.std.specs.Prelude.{◌≡◌, ◌<◌, ◌≤◌, length, take, drop, IfOk};
ghost use Rattle.inventory.specs.Places.{going_on, going_by, given_places, put_together, coming};
ghost use Rattle.timetable.specs.LinkRows.{NamesBelow};
ghost use Rattle.timetable.specs.Links.{list_of};
ghost use Rattle.timetable.specs.Picks.{ArePicks, picked};
ghost use Rattle.timetable.specs.Turns.{staying, beyond};
ghost use Rattle.unit_duties.specs.Trains.{kept_at};

use arrayvec::ArrayVec;
use rail_base::limits::MAX_COMPOSITION_UNITS;
use rail_base::{NoMemory, TripNo, TypeNo, UnitNo};
use rail_csv::{End, UnitList};
use std::alloc::Global;
use timetable::{Instance, Link, Picks, beyond, copy_of, staying, turned};

/// The types of the composition that is picked for a trip, front to rear.
fn types_on<'a>(instance: &'a Instance, picks: &Picks, trip: TripNo) -> &'a [TypeNo]
    requires picks { ArePicks instance.now picks.now }
    requires trip { trip < length instance.now.trips }
    ensures value { result.now ≡ list_of (picked instance.now picks.now) trip }
    ensures few { length result.now ≤ MAX_COMPOSITION_UNITS }
{
    instance.composition(picks, trip).units()
}

/// How many units a turn keeps in the train: none at a join or a split, which keep all.
fn kept_count(instance: &Instance, picks: &Picks, link: &Link) -> usize
    requires picks { ArePicks instance.now picks.now }
    requires trips { NamesBelow (length instance.now.trips) link.now.kind }
    ensures { result ≡ kept_at link.now (picked instance.now picks.now) }
{
    let arriving = types_on(instance, picks, link.kind.leads_from());
    let arriving = turned(link.reverse, arriving);
    let departing = types_on(instance, picks, link.kind.leads_to());
    link.kind.kept(arriving.as_slice(), departing).unwrap_or(0)
}

/// What stays of the units of a train at a turn that keeps so many.
fn staying_of(end: End, whole: &[UnitNo], kept: usize) -> ArrayVec<UnitNo, MAX_COMPOSITION_UNITS>
    requires { length whole.now ≤ MAX_COMPOSITION_UNITS }
    ensures { result.items ≡ staying end whole.now kept }
{
    copy_of(staying(end, whole, kept.min(whole.len())))
}

/// What goes of the units of a train at a turn that keeps so many.
fn beyond_of(end: End, whole: &[UnitNo], kept: usize) -> ArrayVec<UnitNo, MAX_COMPOSITION_UNITS>
    requires { length whole.now ≤ MAX_COMPOSITION_UNITS }
    ensures { result.items ≡ beyond end whole.now kept }
{
    copy_of(beyond(end, whole, kept.min(whole.len())))
}

/// Of the units of a trip, those that go on in a later one.
#[tactic(auto, unfolding(inventory::specs::Places::going_on))]
fn going_on(
    instance: &Instance,
    picks: &Picks,
    from: TripNo,
    to: TripNo,
    units: &[UnitNo],
) -> ArrayVec<UnitNo, MAX_COMPOSITION_UNITS>
    requires picks { ArePicks instance.now picks.now }
    requires trip { from < length instance.now.trips }
    requires few { length units.now ≤ MAX_COMPOSITION_UNITS }
    ensures { result.items ≡ going_on instance.now (picked instance.now picks.now) from to units.now }
{
    match instance.link_out(from) {
        Some(link) => going_by(instance, picks, &link, to, units),
        None => ArrayVec::new(),
    }
}

/// Of the units of a train that arrives for a link, those that go on in a trip.
fn going_by(
    instance: &Instance,
    picks: &Picks,
    link: &Link,
    to: TripNo,
    units: &[UnitNo],
) -> ArrayVec<UnitNo, MAX_COMPOSITION_UNITS>
    requires picks { ArePicks instance.now picks.now }
    requires trips { NamesBelow (length instance.now.trips) link.now.kind }
    requires few { length units.now ≤ MAX_COMPOSITION_UNITS }
    ensures { result.items ≡ going_by link.now.kind link.now.reverse (picked instance.now picks.now) to units.now }
{
    let units = turned(link.reverse, units);
    let trips = link.kind.departing();
    match trips.second {
        None if to == trips.first => staying_of(
            link.kind.uncoupling_end(),
            units.as_slice(),
            kept_count(instance, picks, link),
        ),
        None => ArrayVec::new(),
        Some(second) => {
            let in_front = types_on(instance, picks, trips.first).len();
            if to == trips.first {
                front_of(units.as_slice(), in_front)
            } else if to == second {
                behind(units.as_slice(), in_front)
            } else {
                ArrayVec::new()
            }
        }
    }
}

/// So many units at the front, or all where there are fewer.
fn front_of(units: &[UnitNo], number: usize) -> ArrayVec<UnitNo, MAX_COMPOSITION_UNITS>
    requires { length units.now ≤ MAX_COMPOSITION_UNITS }
    ensures { result.items ≡ take number units.now }
{
    copy_of(&units[..number.min(units.len())])
}

/// The units behind so many at the front.
fn behind(units: &[UnitNo], number: usize) -> ArrayVec<UnitNo, MAX_COMPOSITION_UNITS>
    requires { length units.now ≤ MAX_COMPOSITION_UNITS }
    ensures { result.items ≡ drop number units.now }
{
    copy_of(&units[number.min(units.len())..])
}

/// The units that come into a trip with the trains that arrive for the link into it.
#[tactic(auto, unfolding(inventory::specs::Places::coming))]
fn coming(
    alloc: Global,
    instance: &Instance,
    picks: &Picks,
    lists: &[UnitList],
    trip: TripNo,
) -> Result<Vec<UnitNo>, NoMemory>
    requires picks { ArePicks instance.now picks.now }
    requires lists { length lists.now ≡ length instance.now.trips }
    requires trip { trip < length instance.now.trips }
    ensures { IfOk result (λ units.
        units.items ≡ coming instance.now (picked instance.now picks.now) (list_of lists.now) trip) }
{
    let Some(link) = instance.link_into(trip) else {
        return Ok(Vec::new(alloc));
    };
    let trips = link.kind.arriving();
    let first = trips.first;
    let going = going_on(instance, picks, first, trip, units_of(lists, first));
    let mut units = going.as_slice().to_vec(alloc)?;
    if let Some(second) = trips.second {
        let going = going_on(instance, picks, second, trip, units_of(lists, second));
        units.extend_from_slice(going.as_slice())?;
    }
    Ok(units)
}

/// The units of a trip.
#[tactic(auto, unfolding(rules::specs::Links::list_of))]
fn units_of(lists: &[UnitList], trip: TripNo) -> &[UnitNo]
    requires { trip < length lists.now }
    ensures value { result.now ≡ list_of lists.now trip }
    ensures few { length result.now ≤ MAX_COMPOSITION_UNITS }
{
    lists[trip.place()].items()
}

/// The units that a trip gives to the yard: those that a turn uncouples, and all where no link leads on.
#[tactic(auto, unfolding(inventory::specs::Places::given_places))]
pub(crate) fn given_units(
    instance: &Instance,
    picks: &Picks,
    trip: TripNo,
    units: &[UnitNo],
) -> ArrayVec<UnitNo, MAX_COMPOSITION_UNITS>
    requires picks { ArePicks instance.now picks.now }
    requires trip { trip < length instance.now.trips }
    requires few { length units.now ≤ MAX_COMPOSITION_UNITS }
    ensures { result.items ≡ given_places instance.now (picked instance.now picks.now) trip units.now }
{
    let Some(link) = instance.link_out(trip) else {
        return copy_of(units);
    };
    let units = turned(link.reverse, units);
    let kept = kept_count(instance, picks, &link);
    beyond_of(link.kind.uncoupling_end(), units.as_slice(), kept)
}

/// The units of a trip, front to rear: those that come with its trains, and those that are taken from the yard.
#[tactic(auto, unfolding(inventory::specs::Places::put_together))]
pub(crate) fn put_together(
    alloc: Global,
    instance: &Instance,
    picks: &Picks,
    lists: &[UnitList],
    trip: TripNo,
    fetched: &[UnitNo],
) -> Result<Vec<UnitNo>, NoMemory>
    requires picks { ArePicks instance.now picks.now }
    requires lists { length lists.now ≡ length instance.now.trips }
    requires trip { trip < length instance.now.trips }
    ensures { IfOk result (λ units.
        units.items ≡ put_together instance.now trip
        (coming instance.now (picked instance.now picks.now) (list_of lists.now) trip)
        fetched.now) }
{
    let Some(link) = instance.link_into(trip) else {
        return Ok(fetched.to_vec(alloc)?);
    };
    let mut come = coming(alloc, instance, picks, lists, trip)?;
    match link.kind.coupling_end() {
        End::None => Ok(come),
        End::Rear => {
            come.extend_from_slice(fetched)?;
            Ok(come)
        }
        End::Front => {
            let mut units = fetched.to_vec(alloc)?;
            units.extend_from_slice(&come)?;
            Ok(units)
        }
    }
}
