//! The tables of a day as bytes, the names in the day that they make, and the day without some of its trips.

ghost use Rattle.std.specs.Prelude.{◌≡◌, ◌<◌, ◌≤◌, Some, length, IfOk};
ghost use Rattle.rail_csv.specs.Tables.{AreShort};
ghost use Rattle.timetable.specs.DayTables.{IsDayOfBytes};

use rail_base::limits::MAX_TABLE_BYTES;
use rail_base::{Bytes, LinkNo, StationNo, TripNo};
use rail_csv::{Table, TableBytes};
use std::alloc::Global;
use std::process::Abort;
use std::test::Fail;
use timetable::laws::names_are_found;
use timetable::{Instance, tables_of};

/// The train of T1 is split over T2 and T3, and that of T4 turns round into T5.
const LINKS: &[u8] = b"kind,arriving,arriving2,departing,departing2,reverse,uncouple,couple\n\
    split,T1,,T2,T3,no,none,none\nturn,T4,,T5,,yes,none,none\n";

/// These bytes as those of a table, which has no more than a table may have: more of them fail the test.
fn table(alloc: Global, bytes: &[u8]) -> Result<Bytes, Fail>
    ensures { IfOk result (λ table. length table ≤ MAX_TABLE_BYTES) }
{
    if bytes.len() as u64 > MAX_TABLE_BYTES {
        return Err(Fail::new("a table is too long"));
    }
    Ok(Bytes::of(bytes.to_vec(alloc)?))
}

/// The tables of a day with five trips and these links.
fn five_trips(alloc: Global, links: &[u8]) -> Result<TableBytes, Fail>
    ensures { IfOk result AreShort }
{
    let types = table(
        alloc,
        b"type,carriages,seats,metres,family\nA,3,200,80,regional\n",
    )?;
    let stations = table(
        alloc,
        b"station,platform,reallocation\nX,240,30\nY,240,30\nZ,240,30\n",
    )?;
    let stock = table(alloc, b"station,type,start,end\nX,A,2,0\nY,A,0,2\n")?;
    let trips = table(
        alloc,
        b"trip,from,departure,to,arrival,km,demand\n\
        T1,X,08:00,Y,09:00,10,300\nT2,Y,09:10,Z,10:00,10,300\nT3,Y,09:20,Z,10:10,10,300\n\
        T4,Z,10:50,X,11:50,10,300\nT5,X,12:00,Y,13:00,10,300\n",
    )?;
    let weights = table(alloc, b"carriage,shortage,shunting\n1,1,100\n")?;
    Ok(TableBytes {
        types,
        stations,
        stock,
        trips,
        links: table(alloc, links)?,
        weights,
    })
}

/// The day that these bytes make. A table or a day that is refused fails the test.
fn day_of(alloc: Global, bytes: &TableBytes) -> Result<Instance, Fail>
    requires { AreShort bytes.now }
    ensures { IfOk result (λ day. IsDayOfBytes bytes.now day) }
{
    let tables = tables_of(alloc, bytes)?;
    let day = Instance::build(alloc, tables)?;
    Ok(day)
}

/// The number of the trip that has the name of a trip: its own number, since names are apart.
fn number_by_name(day: &Instance, trip: TripNo) -> Option<TripNo>
    requires { trip < length day.now.trips }
    ensures { result ≡ Some trip }
{
    day.is_sound();
    names_are_found();
    day.find_trip(day.trip(trip).name.as_str())
}

/// The day of the five trips.
fn five_trip_day(alloc: Global) -> Result<Instance, Fail> {
    let bytes = five_trips(alloc, LINKS)?;
    day_of(alloc, &bytes)
}

/// Asserts that the names of the five trips' day, and none else, lead to numbers.
fn are_found(rt: &impl Abort, day: &Instance) {
    assert!(rt; day.find_station("Z") == Some(StationNo(2)));
    assert!(rt; day.find_station("z").is_none());
    assert!(rt; day.find_trip("T4") == Some(TripNo(3)));
    assert!(rt; day.find_trip("").is_none());
    for number in 0..day.trips() {
        let trip = TripNo(number);
        assert!(rt; number_by_name(day, trip) == Some(trip));
    }
}

#[test]
fn names_lead_to_numbers(rt: HostRuntime) -> Result<(), Fail> {
    let day = five_trip_day(rt.alloc())?;
    are_found(&rt, &day);
    Ok(())
}

#[test]
fn a_wrong_table_is_told(rt: HostRuntime) -> Result<(), Fail> {
    let bytes = five_trips(rt.alloc(), b"kind\n")?;
    match tables_of(rt.alloc(), &bytes) {
        Ok(_) => assert!(rt; false, "the header of the links is wrong"),
        Err(wrong) => assert!(rt; matches!(wrong.table, Table::Links)),
    }
    Ok(())
}

/// Whether the first link of a day is a turn that leads from a trip to another one.
fn has_turn_from(day: &Instance, from: u32) -> bool {
    if day.links() == 0 {
        return false;
    }
    let kind = day.link(LinkNo(0)).kind;
    kind.second().is_none() && kind.leads_from() == TripNo(from)
}

/// The day without some of the five trips.
fn day_without(alloc: Global, gone: &[TripNo]) -> Result<Instance, Fail> {
    let bytes = five_trips(alloc, LINKS)?;
    let day = day_of(alloc, &bytes)?;
    let later = day.without_trips(alloc, &bytes, gone)?;
    Ok(later)
}

/// The trips that are gone, how many are left, the number that T4 has then, and how many links are left: the turn from
/// T4 alone, or none.
const GONE: &[([u32; 2], u32, u32, u32)] = &[
    ([2, 2], 4, 2, 1),
    ([1, 0], 3, 1, 1),
    ([4, 1], 3, 2, 0),
];

/// Whether a day has so many trips and links, and T4 has this number and the link leads on from it.
fn is_left(day: &Instance, trips: u32, fourth: u32, links: u32) -> bool {
    day.trips() == trips
        && day.find_trip("T4") == Some(TripNo(fourth))
        && day.links() == links
        && (links == 0 || has_turn_from(day, fourth))
}

#[test]
fn days_without_some_trips(rt: HostRuntime) -> Result<(), Fail> {
    for (gone, trips, fourth, links) in GONE {
        let gone = [TripNo(gone[0]), TripNo(gone[1])];
        let day = day_without(rt.alloc(), gone.as_slice())?;
        assert!(rt; is_left(&day, *trips, *fourth, *links));
    }
    Ok(())
}

/// The trips that are left of the five without some.
fn left_without(alloc: Global, gone: &[TripNo]) -> Result<Vec<TripNo>, Fail> {
    let day = five_trip_day(alloc)?;
    Ok(day.trips_left(alloc, gone)?)
}

#[test]
fn trips_that_are_left(rt: HostRuntime) -> Result<(), Fail> {
    let left = left_without(rt.alloc(), &[TripNo(1), TripNo(0)])?;
    assert!(rt; left.as_slice() == [TripNo(2), TripNo(3), TripNo(4)].as_slice());
    Ok(())
}
