//! Weeks that are made of the texts of the tables of their days, and what is told of them.

ghost use Rattle.std.specs.Prelude.{◌≤◌, IfOk, length};
ghost use Rattle.rail_base.specs.declared.limits.TheConstants.{MAX_BRANCHINGS};
ghost use Rattle.week_units.specs.declared.nights.TheConstants.{MAX_DAYS};

use rail_base::limits::MAX_BRANCHINGS;
use sample_days::{Texts, day_of};
use std::alloc::Global;
use std::test::Fail;
use timetable::Instance;
use week_plan::{Week, week};
use week_text::print_week;
use week_units::{MAX_DAYS, WeekRefusal};

/// A week, and what is told of it.
#[derive(Clone, Copy)]
pub(crate) struct Case {
    /// What it shows.
    pub(crate) about: &'static str,
    /// Its days.
    pub(crate) days: &'static [Texts<'static>],
    /// How many branchings are granted for each day.
    pub(crate) branchings: u32,
    /// How the document of its answer begins; or why its days make no week.
    pub(crate) told: &'static str,
}

/// The days of a case.
pub(crate) fn days_of(alloc: Global, case: &Case) -> Result<Vec<Instance>, Fail> {
    let mut days = Vec::new(alloc);
    for texts in case.days {
        days.push(day_of(alloc, texts)?)?;
    }
    Ok(days)
}

/// The answer to days, or why they make no week. No advisor is asked.
pub(crate) fn planned(
    alloc: Global,
    days: &[Instance],
    branchings: u32,
) -> Result<Result<Week, WeekRefusal>, Fail> {
    if days.len() > MAX_DAYS || branchings > MAX_BRANCHINGS {
        return Err(Fail::new("too many days or branchings"));
    }
    let mut advisors = Vec::new(alloc);
    match week(alloc, days, branchings, 0, 0, &mut advisors) {
        Err(WeekRefusal::NoMemory) => Err(Fail::new("want of memory")),
        planned => Ok(planned),
    }
}

/// What is told of a case.
pub(crate) fn told(alloc: Global, case: &Case) -> Result<Vec<u8>, Fail> {
    let days = days_of(alloc, case)?;
    match planned(alloc, &days, case.branchings)? {
        Ok(week) => Ok(print_week(alloc, &week)?),
        Err(refusal) => Ok(format!(in alloc; "refused: {refusal:?}\n")?.into_bytes()),
    }
}
