//! Disturbed days that are made of the texts of their tables, and what is told of them.

ghost use Rattle.std.specs.Prelude.{◌≤◌, IfOk, length};
ghost use Rattle.rail_base.specs.declared.limits.TheConstants.{MAX_BRANCHINGS, MAX_ROUNDS, MAX_TABLE_BYTES};
ghost use Rattle.rail_csv.specs.Tables.{AreShort};
ghost use Rattle.timetable.specs.DayTables.{IsDayOfBytes};
ghost use Rattle.timetable.specs.Running.{IsPlan};
ghost use Rattle.cancellations.specs.Cancellations.{AreCancellable};
ghost use Rattle.cancellations.specs.DaysWithout.{IsLaterOf};

use crate::telling::{plan_table, refused, replanned, stops};
use day_simulator::simulate;
use rail_base::limits::{MAX_BRANCHINGS, MAX_CHANGE};
use rail_base::{Bytes, Minute};
use rail_csv::TableBytes;
use replan::{
    Allowed, Cancelled, Disturbance, Later, ReplanRefusal, Replanned, later, read_cancelled, replan,
};
use sample_days::{Texts, day_of, plan_of, table};
use std::alloc::Global;
use std::test::Fail;
use timetable::{Instance, NamedPlan, tables_of};

/// A day that is disturbed, and what is told of it.
#[derive(Clone, Copy)]
pub(crate) struct Case {
    /// What it shows.
    pub(crate) about: &'static str,
    pub(crate) texts: Texts<'static>,
    /// The table of the plan.
    pub(crate) plan: &'static [u8],
    /// The minute.
    pub(crate) minute: u16,
    /// The table of cancelled trips.
    pub(crate) cancelled: &'static [u8],
    /// What a changed trip costs.
    pub(crate) change: u32,
    /// How many branchings are granted.
    pub(crate) branchings: u32,
    /// The tables of the later day, written by hand.
    pub(crate) later: Texts<'static>,
    /// What is told; last, what comes of the plan in the later day that was written by hand.
    pub(crate) told: &'static str,
}

/// The bytes of a table.
fn bytes_of(alloc: Global, text: &[u8]) -> Result<Bytes, Fail>
    ensures { IfOk result (λ bytes. length bytes ≤ MAX_TABLE_BYTES) }
{
    Ok(Bytes::of(table(text)?.to_vec(alloc)?))
}

/// The bytes of the tables of a day, with the weights 1, 1 and 100.
fn tables(alloc: Global, texts: &Texts<'_>) -> Result<TableBytes, Fail>
    ensures { IfOk result AreShort }
{
    Ok(TableBytes {
        types: bytes_of(alloc, texts.types)?,
        stations: bytes_of(alloc, texts.stations)?,
        stock: bytes_of(alloc, texts.stock)?,
        trips: bytes_of(alloc, texts.trips)?,
        links: bytes_of(alloc, texts.links)?,
        weights: bytes_of(alloc, b"carriage,shortage,shunting\n1,1,100\n")?,
    })
}

/// The day of tables. A table or a day that is refused fails the test.
fn made_of(alloc: Global, bytes: &TableBytes) -> Result<Instance, Fail>
    requires { AreShort bytes.now }
    ensures { IfOk result (IsDayOfBytes bytes.now) }
{
    let tables = tables_of(alloc, bytes)?;
    Ok(Instance::build(alloc, tables)?)
}

/// What is told of a disturbed day.
pub(crate) fn told(alloc: Global, case: &Case) -> Result<String, Fail> {
    let bytes = tables(alloc, &case.texts)?;
    let instance = made_of(alloc, &bytes)?;
    told_on(alloc, case, &bytes, &instance)
}

/// What is told of a disturbed day of tables.
fn told_on(
    alloc: Global,
    case: &Case,
    bytes: &TableBytes,
    instance: &Instance,
) -> Result<String, Fail>
    requires { IsDayOfBytes bytes.now instance.now }
{
    let plan = plan_of(alloc, instance, case.plan)?;
    let minute = Minute(case.minute);
    match read_cancelled(alloc, instance, minute, table(case.cancelled)?) {
        Err(refusal) => refused(alloc, refusal),
        Ok(cancelled) => {
            let later = later(alloc, bytes, instance, &cancelled)?;
            told_without(alloc, case, instance, &plan, &cancelled, &later)
        }
    }
}

/// What is told of a day from which these trips are cancelled.
fn told_without(
    alloc: Global,
    case: &Case,
    instance: &Instance,
    plan: &NamedPlan,
    cancelled: &Cancelled,
    later: &Later,
) -> Result<String, Fail>
    requires plan { IsPlan instance.now plan.now }
    requires cancelled { AreCancellable instance.now case.now.minute cancelled.now }
    requires later { IsLaterOf instance.now cancelled.now later.now }
{
    if case.change > MAX_CHANGE {
        return Err(Fail::new("a change costs too much"));
    }
    let minute = Minute(case.minute);
    let disturbance = Disturbance::new(instance, plan, minute, cancelled, later, case.change);
    let allowed = allowed(case)?;
    let mut advisors = Vec::new(alloc);
    match replan(alloc, &disturbance, allowed, &mut advisors) {
        Err(ReplanRefusal::NoMemory) => Err(Fail::new("want of memory")),
        Err(ReplanRefusal::Stops(fault)) => stops(alloc, &fault),
        Ok(answer) => told_of(alloc, case, &answer, later),
    }
}

/// What is told of an answer, and last what comes of its plan in the later day that was written by hand.
fn told_of(alloc: Global, case: &Case, answer: &Replanned, later: &Later) -> Result<String, Fail> {
    let mut text = replanned(alloc, answer, later)?;
    if let Some(plan) = &answer.plan {
        let table = plan_table(alloc, plan, later)?;
        write_ran(&mut text, alloc, &case.later, table.as_bytes())?;
    }
    Ok(text)
}

/// What the search of a case is allowed: as many branchings as it grants, and no rounds.
fn allowed(case: &Case) -> Result<Allowed, Fail>
    ensures branchings { IfOk result (λ allowed. allowed.branchings ≤ MAX_BRANCHINGS) }
    ensures rounds { IfOk result (λ allowed. allowed.rounds ≤ MAX_ROUNDS) }
{
    if case.branchings > MAX_BRANCHINGS {
        return Err(Fail::new("too many branchings are granted"));
    }
    Ok(Allowed {
        branchings: case.branchings,
        rounds: 0,
    })
}

/// Adds what comes of a plan, as a table, on a day.
fn write_ran(text: &mut String, alloc: Global, texts: &Texts<'_>, plan: &[u8]) -> Result<(), Fail> {
    let day = day_of(alloc, texts)?;
    let plan = plan_of(alloc, &day, plan)?;
    let Ok(ran) = simulate(alloc, &day, &plan) else {
        return Err(Fail::new("a plan that was answered does not run"));
    };
    write!(text, "runs {}\n", ran.cost.0)?;
    Ok(())
}
