//! Answers as texts: the head, and the units of each trip.

use answer_text::{Answer, Head};
use rail_base::UnitNo;
use std::alloc::{AllocError, Global};
use std::test::Fail;

/// An answer as a text: its head, and after a colon the units of each trip, each after a space, with a comma between
/// two trips.
pub(crate) fn told(alloc: Global, answer: &Answer) -> Result<String, Fail> {
    let mut text = String::new(alloc);
    write_answer(&mut text, answer)?;
    Ok(text)
}

/// Writes an answer.
fn write_answer(text: &mut String, answer: &Answer) -> Result<(), AllocError> {
    write_head(text, answer.head)?;
    let lists = answer.runs.items();
    for place in 0..lists.len() {
        text.push_str(if place == 0 { ":" } else { "," })?;
        write_units(text, lists[place].items())?;
    }
    Ok(())
}

/// Writes units, each after a space.
fn write_units(text: &mut String, units: &[UnitNo]) -> Result<(), AllocError> {
    for unit in units {
        write!(text, " {}", unit.0)?;
    }
    Ok(())
}

/// Writes what an answer says of all plans.
fn write_head(text: &mut String, head: Head) -> Result<(), AllocError> {
    match head {
        Head::Optimal { cost } => write!(text, "optimal {}", cost.0),
        Head::Infeasible => write!(text, "infeasible"),
        Head::Bounded { bound } => write!(text, "bounded {}", bound.0),
        Head::BoundedPlan { bound, cost } => { write!(text, "bounded {} plan {}", bound.0, cost.0) }
    }
}
