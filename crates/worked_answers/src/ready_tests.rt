//! Units that stand ready in a yard, counted by hand.

ghost use Rattle.std.specs.Prelude.{ℕ, ◌≡◌, ◌<◌, List, length, get_or, pos};
ghost use Rattle.timetable.specs.Minutes.{minutes_of};
ghost use Rattle.timetable.specs.Picks.{ArePicks};
ghost use Rattle.unit_duties.specs.Broken.{AreAdmissible};
ghost use Rattle.inventory.specs.NamingLaws.{RunsWith};
ghost use Rattle.inventory.specs.ReadyUnits.{ready_units};

use inventory::Ledger;
use inventory::serving_laws::yards_hold_ready_units;
use rail_base::{NoMemory, StationNo, TypeNo};
use sample_days::{TURN, Texts, day_of, may_run};
use std::alloc::{AllocError, Global};
use std::test::Fail;
use timetable::{Instance, Picks};
use transitions::Graphs;
use unit_duties::name_units;

/// Two units at X and one at Y, with a trip from X, one back and one from X again.
const THERE_AND_BACK: Texts<'static> = Texts {
    stock: b"station,type,start,end\nX,A,2,1\nY,A,1,2\n",
    trips: b"trip,from,departure,to,arrival,km,demand\n\
        T1,X,08:00,Y,09:00,10,300\nT2,Y,09:10,X,10:10,10,150\nT3,X,10:50,Y,11:50,10,150\n",
    links: b"kind,arriving,arriving2,departing,departing2,reverse,uncouple,couple\n",
    ..TURN
};

/// How many units of the first type stand ready in the yard of a station, once the trips that leave at the minute of
/// this place have left, in any plan that runs with the compositions of the ledger.
fn ready_count(ledger: &Ledger<'_>, day: &Instance, station: StationNo, place: u32) -> i64
    requires day { ledger.now.day ≡ day.now }
    requires station { station < length day.now.stations }
    requires types { 0 < length day.now.types }
    requires place { place < length (minutes_of day.now station) }
    ensures { (plan : List (List ℕ)) → RunsWith day.now ledger.now.lists plan → result
        ≡ pos (ready_units day.now plan station 0 (get_or (minutes_of day.now station) place 0)) }
{
    day.is_sound();
    yards_hold_ready_units();
    ledger.count_after(station, TypeNo(0), place)
}

/// Writes these counts of a station and of each minute at which a trip leaves it.
fn write_station(
    text: &mut String,
    ledger: &Ledger<'_>,
    day: &Instance,
    station: StationNo,
) -> Result<(), AllocError>
    requires day { ledger.now.day ≡ day.now }
    requires station { station < length day.now.stations }
    requires types { 0 < length day.now.types }
{
    for place in 0..day.minutes(station).len() {
        let count = ready_count(ledger, day, station, place as u32);
        write!(text, " {count}")?;
    }
    text.push_str(";")
}

/// Writes these counts of each station.
fn write_counts(text: &mut String, ledger: &Ledger<'_>, day: &Instance) -> Result<(), AllocError>
    requires { ledger.now.day ≡ day.now }
{
    if day.types().len() == 0 {
        return Ok(());
    }
    for station in 0..day.stations() {
        write_station(text, ledger, day, StationNo(station))?;
    }
    Ok(())
}

/// Whether units can be named for picks, of which each is a composition of the day's that may run.
fn can_be_named(alloc: Global, day: &Instance, picks: &Picks) -> Result<bool, NoMemory>
    requires picks { ArePicks day.now picks.now }
    requires admissible { AreAdmissible day.now picks.now }
{
    let graphs = Graphs::build(alloc, day)?;
    Ok(name_units(alloc, day, &graphs, picks).is_ok())
}

/// The counts that a ledger has, as a text.
fn counts_in(alloc: Global, ledger: &Ledger<'_>, day: &Instance) -> Result<String, NoMemory>
    requires { ledger.now.day ≡ day.now }
{
    let mut text = String::new(alloc);
    write_counts(&mut text, ledger, day)?;
    Ok(text)
}

/// The counts of a day with picks.
fn counts_of(alloc: Global, day: &Instance, picks: &Picks) -> Result<String, NoMemory>
    requires { ArePicks day.now picks.now }
{
    let mut ledger = Ledger::new(alloc, day)?;
    ledger.load(picks);
    counts_in(alloc, &ledger, day)
}

/// The counts of a day with picks. A day that has no such plan fails the test.
fn counts_with(alloc: Global, day: &Instance, picks: &Picks) -> Result<String, Fail> {
    if !may_run(day, picks) {
        return Err(Fail::new("the first composition may not run"));
    }
    if !can_be_named(alloc, day, picks)? {
        return Err(Fail::new("there is no such plan"));
    }
    Ok(counts_of(alloc, day, picks)?)
}

/// The counts of a day on which each trip has the first composition.
fn counts_told(alloc: Global, day: &Instance) -> Result<String, Fail> {
    let picks = Picks::new(alloc, day.trips())?;
    counts_with(alloc, day, &picks)
}

// One unit is left at X; the one that comes to Y at 09:00 is ready at 09:30, and so is the one that comes back to X at
// 10:10 at 10:40.
#[test]
fn units_stand_ready(rt: HostRuntime) -> Result<(), Fail> {
    let day = day_of(rt.alloc(), &THERE_AND_BACK)?;
    let text = counts_told(rt.alloc(), &day)?;
    assert!(rt; text.as_str() == " 1 1; 0;", "{text}");
    Ok(())
}
