//! The rule by which the units of a later day are named: trips that left before a minute keep theirs.

ghost use Rattle.std.specs.Prelude.{◌≡◌, List, ℕ};
ghost use Rattle.timetable.specs.Day.{Day};
ghost use Rattle.timetable.specs.Picks.{picked};
ghost use Rattle.inventory.specs.NamedUnits.{named_from};
ghost use Rattle.unit_duties.specs.Naming.{CanBeNamed};
ghost use Rattle.replan.specs.RestsOfDays.{NamedFrom, named_by};

use day_planner::Naming;
use rail_base::{Minute, NoMemory};
use std::alloc::Global;
use std::marker::Model;
use timetable::{Instance, NamedPlan, Picks};
use unit_duties::name_units_from;

/// The rule of `name_units_from`, by which the trips that leave before a minute keep the units of an earlier plan. A
/// contract sees the day, the minute and that plan.
#[derive(Drop)]
pub(crate) struct PastNaming<'a> {
    pub(crate) instance: &'a Instance,
    pub(crate) minute: Minute,
    pub(crate) earlier: &'a NamedPlan,
}

impl<'a> Model for PastNaming<'a> {
    ghost use Rattle.replan.specs.RestsOfDays.{NamedFrom};

    ghost Value = { NamedFrom };

    ghost view = { λ a. record { day = a.instance.now; minute = a.minute; earlier = a.earlier.now } };
}

impl<'a> Naming for PastNaming<'a> {
    ghost day = { λ rule. rule.day };

    ghost named = { named_by };

    ghost CanName = { λ rule picks. CanBeNamed rule.day picks rule.minute rule.earlier };

    fn name(&self, alloc: Global, picks: &Picks) -> Result<NamedPlan, NoMemory> {
        name_units_from(alloc, self.instance, picks, self.minute, self.earlier)
    }
}
