//! The report of yards.

ghost use Rattle.std.specs.Prelude.{◌≡◌, ◌<◌, ◌++◌, ◌∷◌, [], length, get_or, IfOk, OnOk};
ghost use Rattle.timetable.specs.Minutes.{minutes_of};
ghost use Rattle.timetable.specs.Picks.{ArePicks, picked};
ghost use Rattle.day_reports.specs.YardRows.{end_row, fields_of_yard, minute_row, start_row};
ghost use Rattle.day_reports.specs.YardRows.{fields_of_station, yard_fields};
ghost use Rattle.day_reports.specs.YardRows.{yards_text};

use crate::names::{station_name, type_name};
use crate::report::{Report, digits_of};
use crate::yard::{RowCounts, Span, Yard};
use inventory::Ledger;
use rail_base::{Minute, NoMemory, StationNo, TypeNo, clock};
use std::alloc::Global;
use timetable::{Instance, Picks};

/// The report of the yards of a day whose trips have picked compositions, as a table of comma-separated values with the
/// columns `station,type,time,taken,ready,count`. The rows of a station come type by type: `start` tells the units that
/// are at home there, then comes each minute at which trips leave the station, and `end` tells the units that are there
/// when the day is over. A minute's `taken` counts the units that trips take then, its `ready` those that become ready
/// by then and after the minute of the row before, or all that are ready by then where that row is `start`; and its
/// `count` those that are left there. The `ready` of `end` counts those that become ready after all these minutes. In
/// `start` nothing is taken or ready, and `end` takes none. Where the rule of a turn is broken, all units of its two
/// trains count as given and taken.
///
/// There is one pick for each trip, and each is the number of a composition of the catalogue. No count is below zero
/// where they are those of a plan that runs. The error is want of memory.
#[tactic(auto, unfolding(crate::specs::YardRows::yards_text))]
pub fn yards_table(alloc: Global, instance: &Instance, picks: &Picks) -> Result<Vec<u8>, NoMemory>
    requires { ArePicks instance.now picks.now }
    ensures { IfOk result (λ text. text.items ≡ yards_text instance.now (picked instance.now picks.now)) }
{
    let mut ledger = Ledger::new(alloc, instance)?;
    ledger.load(picks);
    let mut report = Report::new(alloc);
    report.push(&[b"station", b"type", b"time", b"taken", b"ready", b"count"])?;
    for number in 0..instance.stations() {
        push_station(
            alloc,
            &mut report,
            instance,
            picks,
            &ledger,
            StationNo(number),
        )?;
    }
    report.text()
}

/// Adds the rows of a station.
fn push_station<'day, 'picks, 'ledger>(
    alloc: Global,
    report: &mut Report,
    instance: &'day Instance,
    picks: &'picks Picks,
    ledger: &'ledger Ledger<'day>,
    station: StationNo,
) -> Result<(), NoMemory>
    requires picks { ArePicks instance.now picks.now }
    requires counts { ledger.now ≡ record { day = instance.now; lists = picked instance.now picks.now } }
    requires station { station < length instance.now.stations }
    ensures { OnOk result (report.new ≡ report.old ++
        fields_of_station instance.now (picked instance.now picks.now) station) }
{
    for number in 0..instance.types().len() {
        let yard = Yard {
            instance,
            picks,
            ledger,
            station,
            unit_type: TypeNo(number),
        };
        push_yard(alloc, report, &yard)?;
    }
    Ok(())
}

/// Adds the rows of a type at a station.
fn push_yard(alloc: Global, report: &mut Report, yard: &Yard<'_, '_, '_>) -> Result<(), NoMemory>
    ensures { OnOk result (report.new ≡ report.old ++ fields_of_yard yard.now) }
{
    push_start(alloc, report, yard)?;
    let mut since = None;
    let minutes = yard.instance.minutes(yard.station);
    for place in 0..minutes.len() {
        push_minute(alloc, report, yard, since, place as u32)?;
        since = Some(minutes[place]);
    }
    push_end(alloc, report, yard, since)
}

/// Adds the row of the start.
fn push_start(alloc: Global, report: &mut Report, yard: &Yard<'_, '_, '_>) -> Result<(), NoMemory>
    ensures { OnOk result (report.new ≡ report.old ++ yard_fields yard.now (start_row yard.now) ∷ []) }
{
    let start = yard.instance.start(yard.station, yard.unit_type);
    let counts = RowCounts {
        taken: 0,
        ready: 0,
        count: i64::from(start),
    };
    push_row(alloc, report, yard, b"start", counts)
}

/// Adds the row of a departure minute of the station, behind the row of a minute or of the start.
fn push_minute(
    alloc: Global,
    report: &mut Report,
    yard: &Yard<'_, '_, '_>,
    since: Option<Minute>,
    place: u32,
) -> Result<(), NoMemory>
    requires { place < length (minutes_of yard.now.day yard.now.station) }
    ensures { OnOk result (report.new ≡ report.old ++
        yard_fields yard.now (minute_row yard.now since (get_or (minutes_of yard.now.day yard.now.station) place 0))
        ∷ []) }
{
    let minute = yard.instance.minutes(yard.station)[place as usize];
    let count = yard.ledger.count_after(yard.station, yard.unit_type, place);
    let span = Span {
        after: since,
        by: Some(minute),
    };
    let counts = RowCounts {
        taken: yard.taken_at(minute),
        ready: yard.ready_between(&span),
        count,
    };
    push_row(alloc, report, yard, &clock(minute), counts)
}

/// Adds the row of the end, behind the row of a minute or of the start.
fn push_end(
    alloc: Global,
    report: &mut Report,
    yard: &Yard<'_, '_, '_>,
    since: Option<Minute>,
) -> Result<(), NoMemory>
    ensures { OnOk result (report.new ≡ report.old ++ yard_fields yard.now (end_row yard.now since) ∷ []) }
{
    let span = Span {
        after: since,
        by: None,
    };
    let counts = RowCounts {
        taken: 0,
        ready: yard.ready_between(&span),
        count: yard.ledger.end(yard.station, yard.unit_type),
    };
    push_row(alloc, report, yard, b"end", counts)
}

/// Adds a row.
fn push_row(
    alloc: Global,
    report: &mut Report,
    yard: &Yard<'_, '_, '_>,
    time: &[u8],
    counts: RowCounts,
) -> Result<(), NoMemory>
    ensures { OnOk result (report.new ≡ report.old ++
        yard_fields yard.now (record {
          time = time.now;
          taken = counts.taken;
          ready = counts.ready;
          count = counts.count;
        }) ∷ []) }
{
    let taken = digits_of(alloc, counts.taken)?;
    let ready = digits_of(alloc, counts.ready)?;
    let count = format!(in alloc; "{}", counts.count)?;
    report.push(&[
        station_name(yard.instance, yard.station),
        type_name(yard.instance, yard.unit_type),
        time,
        taken.as_bytes(),
        ready.as_bytes(),
        count.as_bytes(),
    ])
}
