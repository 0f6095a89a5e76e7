//! The rule by which the units of a day are named, where picks are asked to lie in a region.

ghost use Rattle.std.specs.Prelude.{IsTrue};
ghost use Rattle.timetable.specs.Picks.{IsSolution};
ghost use Rattle.branch_tree.specs.Regions.{are_in};
ghost use Rattle.answer_check.specs.ProvedTrees.{named_for};

use branch_tree::Region;
use day_planner::{DayNaming, Naming};
use rail_base::NoMemory;
use std::alloc::Global;
use timetable::{NamedPlan, Picks};

/// Names the units of a day by the day's rule, for solutions in a region alone.
#[derive(Drop)]
pub(crate) struct RegionNaming<'a> {
    /// The rule of the day.
    pub of_day: DayNaming<'a>,
    /// The region.
    pub region: &'a Region,
}

impl<'a> Naming for RegionNaming<'a> {
    ghost day = { λ naming. naming.of_day };

    ghost named = { λ naming. named_for naming.of_day };

    ghost CanName = { λ naming picks. IsSolution naming.of_day picks × IsTrue (are_in picks naming.region.now) };

    fn name(&self, alloc: Global, picks: &Picks) -> Result<NamedPlan, NoMemory> {
        self.of_day.name(alloc, picks)
    }
}
