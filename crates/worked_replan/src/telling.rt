//! What is told of a disturbed day, as lines.

ghost use Rattle.std.specs.Prelude.{◌≤◌, length};

use answer_text::write_head;
use day_simulator::StepFault;
use rail_base::{NoMemory, TripNo, UnitNo};
use replan::{CancelRefusal, Later, Replanned};
use std::alloc::Global;
use std::test::Fail;
use timetable::NamedPlan;

/// That the table of cancelled trips is refused, and why.
pub(crate) fn refused(alloc: Global, refusal: CancelRefusal) -> Result<String, Fail> {
    Ok(format!(in alloc; "refused: {refusal:?}\n")?)
}

/// That the plan that was made does not run, and its first fault.
pub(crate) fn stops(alloc: Global, fault: &StepFault) -> Result<String, Fail> {
    Ok(format!(in alloc; "stops: {fault:?}\n")?)
}

/// The answer to a disturbed day, its trips by the numbers that they had: a line for each trip of its plan, and how
/// many branchings were made.
pub(crate) fn replanned(alloc: Global, answer: &Replanned, later: &Later) -> Result<String, Fail> {
    let mut text = String::new(alloc);
    write_head(&mut text, &answer.head)?;
    write!(&mut text, "changes {}\n", answer.changes)?;
    write_runs(&mut text, &answer.plan, later)?;
    write!(&mut text, "branchings {}\n", answer.tree.branchings())?;
    Ok(text)
}

/// Adds a line for each trip of a plan, where there is one, by the numbers that the trips had.
fn write_runs(text: &mut String, plan: &Option<NamedPlan>, later: &Later) -> Result<(), NoMemory> {
    let Some(plan) = plan else {
        return Ok(());
    };
    for trip in 0..known_trips(plan, later) {
        write!(text, "run {}", later.old(TripNo(trip)).0)?;
        write_units(text, " ", plan.units(TripNo(trip)))?;
    }
    Ok(())
}

/// The plan of a later day as a table.
pub(crate) fn plan_table(alloc: Global, plan: &NamedPlan, later: &Later) -> Result<String, Fail> {
    let mut text = String::new(alloc);
    text.push_str("trip,units\n")?;
    for trip in 0..known_trips(plan, later) {
        let trip = TripNo(trip);
        write!(&mut text, "{}", later.instance.trip(trip).name.as_str())?;
        write_units(&mut text, ",", plan.units(trip))?;
    }
    Ok(text)
}

/// How many trips both a plan and a later day have: all, where the plan is one of the day.
fn known_trips(plan: &NamedPlan, later: &Later) -> u32
    ensures plan { result ≤ length plan.now }
    ensures later { result ≤ length later.now.instance.trips }
{
    if plan.trips() < later.instance.trips() {
        return plan.trips();
    }
    later.instance.trips()
}

/// Adds units, with a mark before the first and a space before each other, and ends the line.
fn write_units(text: &mut String, first: &str, units: &[UnitNo]) -> Result<(), NoMemory> {
    for place in 0..units.len() {
        text.push_str(if place == 0 { first } else { " " })?;
        let unit = units[place];
        write!(text, "{}", unit.0)?;
    }
    text.push_str("\n")?;
    Ok(())
}
