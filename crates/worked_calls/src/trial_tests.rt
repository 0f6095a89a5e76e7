//! Trial days whose draws and rows were worked out apart from the program.

use crate::telling::tables_of;
use rail_csv::TripRow;
use sample_days::Texts;
use std::alloc::{AllocError, Global};
use std::test::Fail;
use timetable::{Instance, Tables};
use trial_day::{Draws, trial_instance, trial_tables};

/// The lines of the trial day of seed 7 with 2 trips, but for its weights.
const TWO_TRIPS: Texts<'static> = Texts {
    types: b"type,carriages,seats,metres,family\nA,3,200,80,regional\nB,2,120,60,regional\n",
    stations: b"station,platform,reallocation\nX,240,15\nY,240,15\n",
    stock: b"station,type,start,end\nX,A,2,2\nX,B,1,1\n",
    trips: b"trip,from,departure,to,arrival,km,demand\n\
        F0,X,05:00,Y,05:50,40,464\nR0,Y,06:00,X,06:50,40,306\n",
    links: b"kind,arriving,arriving2,departing,departing2,reverse,uncouple,couple\n\
        turn,F0,,R0,,yes,rear,rear\n",
};

/// Tables as a text.
fn text_of(alloc: Global, tables: Tables) -> Result<String, AllocError> {
    format!(in alloc; "{tables:?}")
}

/// The tables that are made of seed 7 with 2 trips, as a text.
fn two_trips_made(alloc: Global) -> Result<String, Fail> {
    Ok(text_of(alloc, trial_tables(alloc, 7, 2)?)?)
}

/// The tables that the readers of tables give for the lines of that trial day, as a text.
fn two_trips_read(alloc: Global) -> Result<String, Fail> {
    let tables = tables_of(alloc, &TWO_TRIPS, b"carriage,shortage,shunting\n1,1,60\n")?;
    Ok(text_of(alloc, tables)?)
}

/// Whether the next draw below 400 is this number, and the state after it is this one.
fn draws_next(draws: &mut Draws, below: u32, state: u32) -> bool {
    draws.below(400) == below && draws.state() == state
}

#[test]
fn draws_of_seed_7(rt: HostRuntime) {
    let mut draws = Draws::from_seed(7);
    assert!(rt; draws_next(&mut draws, 364, 1_282_168_116));
    assert!(rt; draws_next(&mut draws, 206, 642_666_333));
}

#[test]
fn tables_of_two_trips(rt: HostRuntime) -> Result<(), Fail> {
    let made = two_trips_made(rt.alloc())?;
    let read = two_trips_read(rt.alloc())?;
    assert!(rt; made == read, "{made}");
    Ok(())
}

/// How many trips, links, units and compositions a day has.
fn counts_of(day: &Instance) -> (u32, u32, u32, u32) {
    (day.trips(), day.links(), day.units(), day.catalogue().len())
}

/// The same of the day that is built of the trial tables of seed 7 with 40 trips.
fn counts_of_forty_trips(alloc: Global) -> Result<(u32, u32, u32, u32), Fail> {
    let tables = trial_tables(alloc, 7, 40)?;
    let day = Instance::build(alloc, tables)?;
    Ok(counts_of(&day))
}

#[test]
fn forty_trips(rt: HostRuntime) -> Result<(), Fail> {
    let counts = counts_of_forty_trips(rt.alloc())?;
    assert!(rt; counts == (40, 20, 60, 15));
    Ok(())
}

/// What is told of the last of some trips: its name, the minutes at which it leaves and arrives, and its demand.
fn told_of_last(alloc: Global, trips: &[TripRow]) -> Result<String, AllocError> {
    let Some(last) = trips.last() else {
        return Ok(String::new(alloc));
    };
    let (departure, arrival) = (last.departure.minutes(), last.arrival.minutes());
    format!(in alloc;
        "{} {departure} {arrival} {}",
        last.name.as_str(),
        last.demand
    )
}

/// What is told of the last trip of the trial day of the last seed with the most trips.
fn last_of_the_most_trips(alloc: Global) -> Result<String, Fail> {
    let tables = trial_tables(alloc, u32::MAX, 400)?;
    Ok(told_of_last(alloc, tables.trips.items())?)
}

/// How many trips, links and units that day has.
fn counts_of_the_most_trips(alloc: Global) -> Result<(u32, u32, u32), Fail> {
    let day = trial_instance(alloc, u32::MAX, 400)?;
    Ok((day.trips(), day.links(), day.units()))
}

#[test]
fn most_trips_of_the_last_seed(rt: HostRuntime) -> Result<(), Fail> {
    let counts = counts_of_the_most_trips(rt.alloc())?;
    assert!(rt; counts == (400, 200, 600));
    let last = last_of_the_most_trips(rt.alloc())?;
    assert!(rt; last.as_str() == "R199 1554 1604 247", "{last}");
    Ok(())
}
