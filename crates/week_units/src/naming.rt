//! Which unit of the week each unit of a day is.

ghost use Rattle.std.specs.Prelude.{ℕ, ◌≡◌, ◌≤◌, ◌<◌, ◌&&◌, ◌==◌, if◌then◌else◌, length, IfOk};
ghost use Rattle.std.specs.List.{AllZip};
ghost use Rattle.rail_base.specs.declared.limits.TheConstants.{MAX_UNITS};
ghost use Rattle.timetable.specs.Day.{stock_units};
ghost use Rattle.timetable.specs.Lists.{count_below, listed};
ghost use Rattle.timetable.specs.Renumbering.{is_at, kth_number, standing_at, unit_after};
ghost use Rattle.timetable.specs.Running.{Runs};
ghost use Rattle.week_units.specs.Listed.{units_listed};
ghost use Rattle.week_units.specs.Names.{AreNames, AreNamesDayByDay};
ghost use Rattle.week_units.specs.WeekPlans.{week_units};
ghost use Rattle.week_units.specs.Weeks.{AreWeek};

use crate::standing::{units_after, units_of};
use rail_base::{NoMemory, StationNo, TypeNo, UnitNo};
use std::alloc::Global;
use std::marker::Model;
use timetable::{Instance, NamedPlan, Unit};

/// For each unit of a day the number of the unit of the week that it is. A contract sees the list of these numbers.
#[derive(Drop)]
pub struct UnitNames {
    numbers: Vec<UnitNo>,
}

impl Model for UnitNames {
    ghost use Rattle.std.specs.Prelude.{List, ℕ};

    ghost Value = { List ℕ };

    ghost view = { λ a. a.numbers.items };
}

impl UnitNames {
    /// The numbers, by the numbers of the day's units. It takes no memory.
    pub fn items(&self) -> &[UnitNo]
        ensures { result.now ≡ self.now }
    {
        self.numbers.as_slice()
    }
}

/// The names of each day. A contract sees the list of their lists.
#[derive(Drop)]
pub struct WeekNames {
    days: Vec<UnitNames>,
}

impl Model for WeekNames {
    ghost use Rattle.std.specs.Prelude.{List, ℕ};

    ghost Value = { List (List ℕ) };

    ghost view = { λ a. a.days.items };
}

impl WeekNames {
    /// The names of each day, in the order of the days. It takes no memory.
    pub fn items(&self) -> &[UnitNames]
        ensures { result.now ≡ self.now }
    {
        self.days.as_slice()
    }
}

/// Which unit of the week each unit of each day is, where these days make a week and a plan of each runs. The units of
/// the week are those of the first day, and keep their numbers. On each later day a unit of the week stands where the
/// plan of the day before leaves it, and the k-th unit of a type that is at home at a station is the k-th unit of the
/// week of this type that stands there, both by rising number. No two are the same, and none is left over.
///
/// By these names the plans are a week plan that runs, by the law `named_plans_make_weeks`. The error is want of
/// memory.
pub fn names(alloc: Global, days: &[Instance], plans: &[NamedPlan]) -> Result<WeekNames, NoMemory>
    requires week { AreWeek days.now }
    requires plans { AllZip Runs days.now plans.now }
    ensures { IfOk result (AreNamesDayByDay (week_units days.now) days.now plans.now) }
{
    let mut named = Vec::new(alloc);
    if days.len() == 0 {
        return Ok(WeekNames { days: named });
    }
    let mut units = units_of(alloc, &days[0])?;
    for day in 0..days.len() {
        let instance = &days[day];
        let plan = &plans[day];
        let numbers = names_on(alloc, &units, instance)?;
        units = units_after(alloc, &units, instance, plan, &numbers)?;
        named.push(UnitNames { numbers })?;
    }
    Ok(WeekNames { days: named })
}

/// Which unit of the week each unit of a day is, where the units of the week stand so.
fn names_on(alloc: Global, units: &[Unit], instance: &Instance) -> Result<Vec<UnitNo>, NoMemory>
    requires few { length units.now ≤ MAX_UNITS }
    requires as_many { (s m : ℕ)
        → standing_at (stock_units instance.now) s m ≡ standing_at (units_listed units.now) s m }
    ensures { IfOk result (λ numbers. AreNames (units_listed units.now) instance.now numbers.items) }
{
    let own = units_of(alloc, instance)?;
    let mut numbers = Vec::new(alloc);
    for unit in 0..own.len() {
        numbers.push(kth_number(&own, units, unit))?;
    }
    Ok(numbers)
}

/// The number of the unit of others that has as many of its type at its station before it as a unit has.
fn kth_number(own: &[Unit], others: &[Unit], unit: usize) -> UnitNo
    requires unit { unit < length own.now }
    requires few { length others.now ≤ MAX_UNITS }
    ensures { result ≡ kth_number (units_listed own.now) (units_listed others.now) unit }
{
    let one = own[unit];
    let before = count_before(own, one.home, one.unit_type, unit);
    unit_after(others, one.home, one.unit_type, before)
}

/// How many of the units before a place are of a type and stand at a station.
fn count_before(units: &[Unit], station: StationNo, unit_type: TypeNo, place: usize) -> usize
    requires { place ≤ length units.now }
    ensures { result ≡ count_below (is_at (units_listed units.now) station unit_type) place }
{
    let mut count = 0;
    for k in 0..place {
        count += one_at(units, station, unit_type, k);
    }
    count
}

/// 1 where the unit at a place is of a type and stands at a station, and else 0.
fn one_at(units: &[Unit], station: StationNo, unit_type: TypeNo, place: usize) -> usize
    requires { place < length units.now }
    ensures { result ≡ if is_at (units_listed units.now) station unit_type place then 1 else 0 }
{
    let unit = units[place];
    if unit.home == station && unit.unit_type == unit_type {
        1
    } else {
        0
    }
}

/// The last unit of a type at a station that has so many of them before it, and 0 where there is none.
fn unit_after(units: &[Unit], station: StationNo, unit_type: TypeNo, before: usize) -> UnitNo
    requires { length units.now ≤ MAX_UNITS }
    ensures { result ≡ unit_after (units_listed units.now) station unit_type before (length units.now) }
{
    let mut count = 0;
    for k in 0..units.len() {
        let one = one_at(units, station, unit_type, k);
        if one == 1 && count == before {
            return UnitNo(k as u32);
        }
        count += one;
    }
    UnitNo(0)
}
