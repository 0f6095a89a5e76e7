//! The report of duties.

ghost use Rattle.std.specs.Prelude.{◌≡◌, ◌<◌, ◌++◌, ◌∷◌, [], length, IfOk, OnOk};
ghost use Rattle.std.specs.List.{All};
ghost use Rattle.timetable.specs.Day.{unit_count};
ghost use Rattle.timetable.specs.Running.{IsPlan};
ghost use Rattle.day_reports.specs.DutyRows.{duties_text, duty_rows, idle_row, stop_row};

use crate::names::{
    arrival_of_trip, departure_of_trip, goal_of_trip, home_of_unit, origin_of_trip, trip_name,
    type_of_unit,
};
use crate::report::{Report, digits_of};
use rail_base::{NoMemory, UnitNo};
use std::alloc::Global;
use timetable::{Instance, NamedPlan};
use unit_duties::{Stop, duties};

/// The report of the duties of a plan, as a table of comma-separated values with the columns
/// `unit,type,home,trip,from,departure,to,arrival,position`. The rows of a unit are those of the trips of its duty, in
/// the order in which they leave, and of one minute by trip number; where it has none, there is one row that tells its
/// type and home alone. Units come by number. The position in the train is 0 at its front; of a unit that a trip has
/// twice it is that of the first. The plan is one of this day, and need not run. The error is want of memory.
#[tactic(auto, unfolding(crate::specs::DutyRows::duties_text))]
pub fn duties_table(
    alloc: Global,
    instance: &Instance,
    plan: &NamedPlan,
) -> Result<Vec<u8>, NoMemory>
    requires { IsPlan instance.now plan.now }
    ensures { IfOk result (λ text. text.items ≡ duties_text instance.now plan.now) }
{
    let duties = duties(alloc, instance, plan)?;
    let mut report = Report::new(alloc);
    report.push(&[
        b"unit",
        b"type",
        b"home",
        b"trip",
        b"from",
        b"departure",
        b"to",
        b"arrival",
        b"position",
    ])?;
    for number in 0..instance.units() {
        let unit = UnitNo(number);
        push_duty(alloc, &mut report, instance, unit, duties.stops(unit))?;
    }
    report.text()
}

/// Adds the rows of a unit: one for each trip of its duty, and one with no trip where there is none.
fn push_duty(
    alloc: Global,
    report: &mut Report,
    instance: &Instance,
    unit: UnitNo,
    stops: &[Stop],
) -> Result<(), NoMemory>
    requires unit { unit < unit_count instance.now }
    requires trips { All (λ stop. stop.trip < length instance.now.trips) stops.now }
    ensures { OnOk result (report.new ≡ report.old ++ duty_rows instance.now unit stops.now) }
{
    if stops.is_empty() {
        return push_idle(alloc, report, instance, unit);
    }
    for stop in stops {
        push_stop(alloc, report, instance, unit, *stop)?;
    }
    Ok(())
}

/// Adds the row of a unit without a trip.
fn push_idle(
    alloc: Global,
    report: &mut Report,
    instance: &Instance,
    unit: UnitNo,
) -> Result<(), NoMemory>
    requires { unit < unit_count instance.now }
    ensures { OnOk result (report.new ≡ report.old ++ idle_row instance.now unit ∷ []) }
{
    let number = digits_of(alloc, unit.0)?;
    report.push(&[
        number.as_bytes(),
        type_of_unit(instance, unit),
        home_of_unit(instance, unit),
        b"",
        b"",
        b"",
        b"",
        b"",
        b"",
    ])
}

/// Adds the row of a unit on one trip of its duty.
fn push_stop(
    alloc: Global,
    report: &mut Report,
    instance: &Instance,
    unit: UnitNo,
    stop: Stop,
) -> Result<(), NoMemory>
    requires unit { unit < unit_count instance.now }
    requires trip { stop.trip < length instance.now.trips }
    ensures { OnOk result (report.new ≡ report.old ++ stop_row instance.now unit stop ∷ []) }
{
    let number = digits_of(alloc, unit.0)?;
    let position = digits_of(alloc, stop.position)?;
    report.push(&[
        number.as_bytes(),
        type_of_unit(instance, unit),
        home_of_unit(instance, unit),
        trip_name(instance, stop.trip),
        origin_of_trip(instance, stop.trip),
        &departure_of_trip(instance, stop.trip),
        goal_of_trip(instance, stop.trip),
        &arrival_of_trip(instance, stop.trip),
        position.as_bytes(),
    ])
}
