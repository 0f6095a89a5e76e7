//! The slacks of picks at all indices, by counting trip by trip.

ghost use Rattle.std.specs.Prelude.{◌<◌, length};
ghost use Rattle.timetable.specs.Picks.{ArePicks};

use crate::drawn_picks::pick_of;
use crate::link_rule::part_of;
use branch_tree::Slacks;
use rail_base::{CompNo, LinkNo, Minute, StationNo, TripNo, TypeNo};
use std::alloc::Global;
use std::test::Fail;
use timetable::{Instance, Picks};

/// The slacks in the order of the indices: of each departure minute by station, type and minute; of each end by
/// station and type; of each hand-over by its number and then by compositions.
pub(crate) fn plain_slacks(alloc: Global, day: &Instance, picks: &Picks) -> Result<Vec<i64>, Fail>
    requires { ArePicks day.now picks.now }
{
    let mut slacks = Vec::new(alloc);
    add_minutes(day, picks, &mut slacks)?;
    add_ends(day, picks, &mut slacks)?;
    for handover in 0..day.handovers() {
        add_parts(day, picks, handover, &mut slacks)?;
    }
    Ok(slacks)
}

/// Adds the slacks of departure minutes: minus the counts after them.
fn add_minutes(day: &Instance, picks: &Picks, slacks: &mut Vec<i64>) -> Result<(), Fail>
    requires { ArePicks day.now picks.now }
{
    for station in 0..day.stations() {
        for unit_type in 0..day.types().len() {
            for minute in day.minutes(StationNo(station)) {
                let until = Some(*minute);
                let count = count(day, picks, StationNo(station), TypeNo(unit_type), until);
                slacks.push(count.wrapping_neg())?;
            }
        }
    }
    Ok(())
}

/// Adds the slacks of ends: what is wanted less what is there.
fn add_ends(day: &Instance, picks: &Picks, slacks: &mut Vec<i64>) -> Result<(), Fail>
    requires { ArePicks day.now picks.now }
{
    for station in 0..day.stations() {
        for unit_type in 0..day.types().len() {
            let (station, unit_type) = (StationNo(station), TypeNo(unit_type));
            let wanted = i64::from(day.end(station, unit_type));
            let there = count(day, picks, station, unit_type, None);
            slacks.push(wanted.wrapping_sub(there))?;
        }
    }
    Ok(())
}

/// Adds the slacks of a hand-over: 1 where its part has the composition, less 1 where its second trip has it.
fn add_parts(
    day: &Instance,
    picks: &Picks,
    handover: u32,
    slacks: &mut Vec<i64>,
) -> Result<(), Fail> {
    if handover >= day.handovers() {
        return Ok(());
    }
    let handover = day.handover(handover);
    if handover.link.0 >= day.links() {
        return Ok(());
    }
    let part = part_of(day, day.link(handover.link), picks);
    let second = pick_of(picks, handover.second);
    for comp in 0..day.catalogue().len() {
        let is_part = i64::from(part == Some(CompNo(comp)));
        let is_second = i64::from(second == CompNo(comp));
        slacks.push(is_part.wrapping_sub(is_second))?;
    }
    Ok(())
}

/// How many units of a type stand at a station after the departures of a minute, or at the end of the day: those at
/// the start and those given there that are ready by then, less those taken there until then.
fn count(
    day: &Instance,
    picks: &Picks,
    station: StationNo,
    unit_type: TypeNo,
    until: Option<Minute>,
) -> i64
    requires picks { ArePicks day.now picks.now }
    requires station { station < length day.now.stations }
{
    let wait = day.station(station).reallocation;
    let mut count = i64::from(day.start(station, unit_type));
    for trip in 0..day.trips() {
        let runs = day.trip(TripNo(trip));
        if runs.to == station && is_by(runs.arrival, wait, &until) {
            let given = day.given_types(picks, TripNo(trip));
            count = count.wrapping_add(of_type(given.as_slice(), unit_type));
        }
        if runs.from == station && is_by(runs.departure, 0, &until) {
            let taken = day.taken_types(picks, TripNo(trip));
            count = count.wrapping_sub(of_type(taken.as_slice(), unit_type));
        }
    }
    count
}

/// Whether a minute comes so many minutes before another, or earlier. Every minute comes before the end of the day.
fn is_by(minute: Minute, wait: u32, until: &Option<Minute>) -> bool {
    match until {
        Some(until) => u64::from(minute.0) + u64::from(wait) <= u64::from(until.0),
        None => true,
    }
}

/// How many of these units have a type.
fn of_type(types: &[TypeNo], unit_type: TypeNo) -> i64 {
    let mut units: i64 = 0;
    for found in types {
        if *found == unit_type {
            units = units.wrapping_add(1);
        }
    }
    units
}

/// Whether these are exactly the slacks of the list that are not 0, by rising index.
pub(crate) fn are_slacks(found: &Slacks, slacks: &[i64]) -> bool {
    let mut place = 0;
    for index in 0..slacks.len() {
        let slack = slacks[index];
        if slack != 0 {
            if place >= found.len() || found.at(place).index as usize != index {
                return false;
            }
            if found.at(place).value != slack {
                return false;
            }
            place += 1;
        }
    }
    place == found.len()
}
