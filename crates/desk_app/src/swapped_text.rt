//! The text of a plan with units swapped: how many urgent units are brought, the plan that brings them, and the cut
//! that shows that none brings more.

ghost use Rattle.std.specs.Prelude.{◌≡◌, ◌<◌, ◌++◌, ◌∷◌, [], length, IfOk, OnOk, string_bytes};
ghost use Rattle.timetable.specs.Links.{list_of};
ghost use Rattle.answer_text.specs.Lines.{Adds};
ghost use Rattle.answer_text.specs.Texts.{run_line, run_lines};
ghost use Rattle.desk_app.specs.SwapTexts.{count_line, near_from, near_if, near_lines, swapped_text};

use answer_text::write_run;
use rail_base::{NoMemory, TripNo};
use rail_csv::UnitList;
use std::alloc::Global;
use timetable::NamedPlan;
use urgent_units::{Swapped, YardCut};

/// The text of a plan with units swapped. The error is want of memory.
pub(crate) fn swapped_text(alloc: Global, swapped: &Swapped) -> Result<Vec<u8>, NoMemory>
    ensures { IfOk result (λ text. text.items ≡ swapped_text swapped.now) }
{
    let mut text = String::new(alloc);
    write_count(&mut text, swapped.count)?;
    write_plan(alloc, &mut text, &swapped.plan)?;
    write_cut(&mut text, &swapped.cut)?;
    text.push_str("end\n")?;
    Ok(text.into_bytes())
}

/// Adds how many urgent units are brought.
fn write_count(text: &mut String, count: u32) -> Result<(), NoMemory>
    ensures { OnOk result (Adds (string_bytes text.old) (string_bytes text.new) (count_line count ∷ [])) }
{
    write!(text, "urgent {count}\n")?;
    Ok(())
}

/// Adds the units of each trip.
fn write_plan(alloc: Global, text: &mut String, plan: &NamedPlan) -> Result<(), NoMemory>
    ensures { OnOk result (Adds (string_bytes text.old) (string_bytes text.new) (run_lines 0 plan.now)) }
{
    for number in 0..plan.trips() {
        write_trip(alloc, text, plan, TripNo(number))?;
    }
    Ok(())
}

/// Adds the units of one trip.
fn write_trip(
    alloc: Global,
    text: &mut String,
    plan: &NamedPlan,
    trip: TripNo,
) -> Result<(), NoMemory>
    requires { trip < length plan.now }
    ensures { OnOk result (Adds (string_bytes text.old) (string_bytes text.new)
        (run_line trip (list_of plan.now trip) ∷ [])) }
{
    let units = UnitList::of(plan.units(trip).to_vec(alloc)?);
    write_run(text, trip.place(), &units)
}

/// Adds the moments of a cut.
fn write_cut(text: &mut String, cut: &YardCut) -> Result<(), NoMemory>
    ensures { OnOk result (Adds (string_bytes text.old) (string_bytes text.new) (near_lines 0 cut.now)) }
{
    for station in 0..cut.stations() {
        write_moments(text, station, cut.flags(station))?;
    }
    Ok(())
}

/// Adds the moments of a station that are in a cut.
fn write_moments(text: &mut String, station: usize, flags: &[bool]) -> Result<(), NoMemory>
    ensures { OnOk result (Adds (string_bytes text.old) (string_bytes text.new) (near_from station 0 flags.now)) }
{
    for moment in 0..flags.len() {
        write_moment(text, station, moment, flags[moment])?;
    }
    Ok(())
}

/// Adds a moment of a station, where it is in a cut.
fn write_moment(
    text: &mut String,
    station: usize,
    moment: usize,
    is_in: bool,
) -> Result<(), NoMemory>
    ensures { OnOk result (Adds (string_bytes text.old) (string_bytes text.new) (near_if is_in station moment)) }
{
    if is_in {
        write!(text, "near {station} {moment}\n")?;
    }
    Ok(())
}
