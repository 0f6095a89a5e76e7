//! A plan of named units: which units run on each trip, front to rear.

ghost use Rattle.std.specs.Prelude.{◌≡◌, ◌<◌, ◌≤◌, length, slice_get, IfOk, IfErr};
ghost use Rattle.rail_base.specs.Answers.{Unless, Gives, GivesRows};
ghost use Rattle.timetable.specs.Links.{list_of};
ghost use Rattle.timetable.specs.Plans.{is_named, are_units, accept_list, lists_in, plan_of, IsPlanOf, plan_tests};
ghost use Rattle.timetable.specs.Plans.{is_memory};
ghost use Rattle.timetable.specs.Tests.{NoneFailed, IsFirstFailed};
ghost use Rattle.timetable.specs.Running.{IsPlan};

use crate::day::instance::Instance;
use day_tables::{PlanRefusal, row_after};
use rail_base::limits::{MAX_COMPOSITION_UNITS, MAX_TRIPS};
use rail_base::{Name, NoMemory, TripNo, UnitNo};
use rail_csv::{PlanRow, UnitList};
use std::alloc::Global;
use std::marker::Model;

/// The units of each trip of a day, front to rear, one list a trip. A contract sees the list of these lists.
#[derive(Drop)]
pub struct NamedPlan {
    lists: Vec<UnitList>,
}

impl Model for NamedPlan {
    ghost use Rattle.std.specs.Prelude.{List, ℕ, length, ◌≤◌};

    ghost Value = { List (List ℕ) };

    ghost view = { λ a. a.lists.items };

    ghost use Rattle.rail_base.specs.declared.limits.TheConstants.{MAX_TRIPS};

    ghost invariant = { λ a. length a.lists.items ≤ MAX_TRIPS };
}

impl NamedPlan {
    /// The plan that rows make of a day: row k, counted from 1, is for trip k - 1. There is no condition on the rows.
    ///
    /// The first wrong row is refused: as `WrongTrip` if its name isn't that of its trip, or all trips have their rows,
    /// and else as `UnknownUnit` if it has a unit that the day lacks. A plan of right rows is refused as `MissingTrip`
    /// if they are too few. `NoMemory` may come at any of them.
    #[tactic(auto, unfolding(crate::specs::Plans::plan_of))]
    pub fn build(
        alloc: Global,
        instance: &Instance,
        rows: &[PlanRow],
    ) -> Result<NamedPlan, PlanRefusal>
        // The refusal is the first test that fails, and else the plan is that of the tests.
        ensures exact { Gives is_memory result (plan_of instance.now rows.now) }
        // The plan is that of the rows in their own words.
        ensures meaning { IfOk result (λ plan. IsPlanOf instance.now rows.now plan) }
        ensures is_plan { IfOk result (λ plan. IsPlan instance.now plan) }
        // Of the tests in their order none failed, and else a refusal is that of the first that did.
        ensures passed { IfOk result (λ _. NoneFailed (plan_tests instance.now rows.now)) }
        ensures refusal { IfErr result
            (λ refusal. Unless (is_memory refusal) (IsFirstFailed (plan_tests instance.now rows.now) refusal)) }
    {
        let lists = lists_of(alloc, instance, rows)?;
        if rows.len() < instance.trips() as usize {
            return Err(PlanRefusal::MissingTrip(rows.len() as u32));
        }
        Ok(NamedPlan { lists })
    }

    /// The plan of these lists, one a trip in the order of the trips: at most 400. There is no condition on the units.
    /// It takes no memory.
    pub fn of(lists: Vec<UnitList>) -> NamedPlan
        requires { length lists.items ≤ MAX_TRIPS }
        ensures { result ≡ lists.items }
    {
        NamedPlan { lists }
    }

    /// The plan of the same lists again, one a trip in the order of the trips: at most 400. There is no condition on
    /// the units. The error is want of memory.
    pub fn copied(alloc: Global, lists: &[UnitList]) -> Result<NamedPlan, NoMemory>
        requires { length lists.now ≤ MAX_TRIPS }
        ensures { IfOk result (λ plan. plan ≡ lists.now) }
    {
        let mut copy = Vec::new(alloc);
        for list in lists {
            copy.push(copy_of(alloc, list)?)?;
        }
        Ok(NamedPlan::of(copy))
    }

    /// The lists of the units, one a trip. It takes no memory.
    pub fn into_lists(self) -> Vec<UnitList>
        ensures { result.items ≡ self }
    {
        self.lists
    }

    /// The units of this trip, front to rear: at most six. The trip is below `trips`.
    #[tactic(auto, unfolding(rules::specs::Links::list_of))]
    pub fn units(&self, trip: TripNo) -> &[UnitNo]
        requires { trip < length self.now }
        ensures value { result.now ≡ list_of self.now trip }
        ensures few { length result.now ≤ MAX_COMPOSITION_UNITS }
    {
        self.lists[trip.place()].items()
    }

    /// For how many trips there is a list.
    pub fn trips(&self) -> u32
        ensures value { result ≡ length self.now }
        ensures few { result ≤ MAX_TRIPS }
    {
        self.lists.len() as u32
    }
}

/// Whether there is a trip of this number, and it has the name.
fn is_trip(instance: &Instance, trip: usize, name: &Name) -> bool
    ensures value { result ≡ is_named (slice_get instance.now.trips trip) name.now }
    ensures few { length instance.now.trips ≤ MAX_TRIPS }
{
    if trip >= instance.trips() as usize {
        return false;
    }
    instance.trip(TripNo(trip as u32)).name.is(name)
}

/// Whether each is a unit of the day.
fn are_units(instance: &Instance, units: &[UnitNo]) -> bool
    ensures { result ≡ are_units instance.now units.now }
{
    units.iter().all(|unit| unit.0 < instance.units())
}

/// The same units in the same order.
fn copy_of(alloc: Global, units: &UnitList) -> Result<UnitList, NoMemory>
    ensures { IfOk result (λ copy. copy ≡ units.now) }
{
    let items = units.items();
    let copies = items.to_vec(alloc)?;
    Ok(UnitList::of(copies))
}

/// The list of a row, after those of the rows before it.
#[tactic(auto, unfolding(crate::specs::Plans::accept_list))]
fn accept_list(
    alloc: Global,
    instance: &Instance,
    before: &[UnitList],
    row: &PlanRow,
) -> Result<UnitList, PlanRefusal>
    requires { length before.now ≤ MAX_TRIPS }
    ensures value { Gives is_memory result (accept_list instance.now before.now row.now) }
    ensures few { IfOk result (λ _. length before.now < MAX_TRIPS) }
{
    if !is_trip(instance, before.len(), &row.trip) {
        return Err(PlanRefusal::WrongTrip(row_after(before.len())));
    }
    if !are_units(instance, row.units.items()) {
        return Err(PlanRefusal::UnknownUnit(row_after(before.len())));
    }
    Ok(copy_of(alloc, &row.units)?)
}

/// The lists of the rows.
#[tactic(auto, unfolding(crate::specs::Plans::lists_in))]
fn lists_of(
    alloc: Global,
    instance: &Instance,
    rows: &[PlanRow],
) -> Result<Vec<UnitList>, PlanRefusal>
    ensures value { GivesRows is_memory result (lists_in instance.now rows.now) }
    ensures few { IfOk result (λ lists. length lists.items ≤ MAX_TRIPS) }
{
    let mut lists = Vec::new(alloc);
    for row in rows {
        let accepted = accept_list(alloc, instance, &lists, row)?;
        lists.push(accepted)?;
    }
    Ok(lists)
}
