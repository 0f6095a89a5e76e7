//! Rules by which units are named, where the compositions of the trips are picked.

ghost use Rattle.std.specs.Prelude.{ℕ, List, ◌≡◌, IfOk};
ghost use Rattle.timetable.specs.Day.{Day};
ghost use Rattle.timetable.specs.Picks.{IsSolution, RunsByPicks};
ghost use Rattle.transitions.specs.Edges.{AreGraphs};
ghost use Rattle.answer_check.specs.ProvedTrees.{named_for};

use rail_base::NoMemory;
use std::alloc::Global;
use std::marker::Model;
use timetable::{Instance, NamedPlan, Picks};
use transitions::Graphs;
use unit_duties::{DutyRefusal, name_units};

/// A rule by which the units of a plan are named, where the compositions of its trips are picked.
pub trait Naming {
    /// The day of the plans.
    ghost day: { Self → Day };

    /// The units of each trip, as the rule names them for picks.
    ghost named: { Self → List ℕ → List (List ℕ) };

    /// The picks for which the rule names a plan that runs.
    ghost CanName: { Self → List ℕ → Type 0 };

    /// The plan of the units that the rule names for picks. It runs, and has the picked compositions. The error is want
    /// of memory.
    fn name(&self, alloc: Global, picks: &Picks) -> Result<NamedPlan, NoMemory>
        requires { CanName self.now picks.now }
        ensures named { IfOk result (λ plan. plan ≡ named self.now picks.now) }
        ensures runs { IfOk result (λ plan. RunsByPicks (day self.now) plan picks.now) };
}

/// The rule of `name_units`, by which all units of a day are named. A contract sees the day.
#[derive(Drop)]
pub struct DayNaming<'a> {
    instance: &'a Instance,
    graphs: &'a Graphs,
}

impl<'a> Model for DayNaming<'a> {
    ghost use Rattle.timetable.specs.Day.{Day};
    ghost use Rattle.transitions.specs.Edges.{AreGraphs};

    ghost Value = { Day };

    ghost view = { λ a. a.instance.now };

    ghost invariant = { λ a. AreGraphs a.instance.now a.graphs.now };
}

impl<'a> DayNaming<'a> {
    /// The rule of a day; the graphs are those of the day.
    pub fn new(instance: &'a Instance, graphs: &'a Graphs) -> DayNaming<'a>
        requires { AreGraphs instance.now graphs.now }
        ensures { result ≡ instance.now }
    {
        DayNaming { instance, graphs }
    }
}

impl<'a> Naming for DayNaming<'a> {
    ghost day = { λ day. day };

    ghost named = { named_for };

    ghost CanName = { IsSolution };

    fn name(&self, alloc: Global, picks: &Picks) -> Result<NamedPlan, NoMemory> {
        match name_units(alloc, self.instance, self.graphs, picks) {
            Ok(plan) => Ok(plan),
            Err(DutyRefusal::NoMemory) => Err(NoMemory),
            Err(_) => unreachable!(),
        }
    }
}
