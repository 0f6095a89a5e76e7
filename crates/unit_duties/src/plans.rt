//! Plans of named units, for compositions that are picked.

ghost use Rattle.std.specs.Prelude.{◌≡◌, IfOk, IfErr};
ghost use Rattle.inventory.specs.NamedUnits.{named_plan, named_from};
ghost use Rattle.inventory.specs.NamingLaws.{RunsWith, RunsOn};
ghost use Rattle.timetable.specs.Picks.{ArePicks, picked};
ghost use Rattle.transitions.specs.Edges.{AreGraphs};
ghost use Rattle.unit_duties.specs.Broken.{AreAdmissible};
ghost use Rattle.unit_duties.specs.Naming.{CanBeNamed};
ghost use Rattle.unit_duties.specs.Refusals.{IsRefusal, HaveNoPlan};

use crate::broken::first_broken;
use crate::naming::{Naming, named_from};
use crate::refusal::DutyRefusal;
use inventory::Ledger;
use rail_base::{Minute, NoMemory};
use std::alloc::Global;
use timetable::{Instance, NamedPlan, Picks};
use transitions::Graphs;

/// The plan of named units whose trips have the picked compositions. Trips are named by departure minute and then by
/// trip number. Units that stay in a train keep their places; each other place, front to rear, gets the unit of its
/// type that was ready earliest in the yard of the station, and of those the one with the smallest number. A unit at
/// its home is ready from the first minute on. The graphs are those of the instance, and the picks are a composition of
/// its catalogue for each trip, which may run on it.
///
/// But for want of memory, the picks are refused exactly where no plan that runs has them: by the first link whose rule
/// the types break; or, where no link is broken, by the first fault of the yards.
pub fn name_units(
    alloc: Global,
    instance: &Instance,
    graphs: &Graphs,
    picks: &Picks,
) -> Result<NamedPlan, DutyRefusal>
    requires graphs { AreGraphs instance.now graphs.now }
    requires picks { ArePicks instance.now picks.now }
    requires admissible { AreAdmissible instance.now picks.now }
    ensures plan { IfOk result (λ plan. plan ≡ named_plan instance.now (picked instance.now picks.now)) }
    ensures runs { IfOk result (RunsWith instance.now (picked instance.now picks.now)) }
    ensures refusal { IfErr result (IsRefusal instance.now picks.now) }
    ensures none { IfErr result (HaveNoPlan instance.now picks.now) }
{
    instance.is_sound();
    if let Some(link) = first_broken(instance, graphs, picks) {
        return Err(DutyRefusal::LinkBroken(link));
    }
    let mut ledger = Ledger::new(alloc, instance)?;
    ledger.load(picks);
    if let Some(fault) = ledger.first_fault() {
        return Err(DutyRefusal::Stock(fault));
    }
    let none = NamedPlan::of(Vec::new(alloc));
    let naming = Naming {
        instance,
        picks,
        minute: 0,
        earlier: &none,
    };
    Ok(named_from(alloc, naming)?)
}

/// The plan of named units whose trips have the picked compositions, in which the trips that leave before a minute keep
/// the units of an earlier plan, and the others are named by the rule of `name_units`, over the units that stand ready
/// in the yards then. There is one pick for each trip, a composition of the catalogue; the yards serve these, as they
/// do exactly where the picks are those of some plan that runs; the earlier plan has a list for each trip that leaves
/// before the minute; and in it these trips are named with these compositions as the rules of links and duties ask it
/// of them. The error is want of memory.
pub fn name_units_from(
    alloc: Global,
    instance: &Instance,
    picks: &Picks,
    minute: Minute,
    earlier: &NamedPlan,
) -> Result<NamedPlan, NoMemory>
    requires can { CanBeNamed instance.now picks.now minute earlier.now }
    ensures plan { IfOk result (λ plan. plan
        ≡ named_from instance.now (picked instance.now picks.now) minute earlier.now) }
    ensures runs { IfOk result (RunsOn instance.now (picked instance.now picks.now) minute earlier.now) }
{
    instance.is_sound();
    let naming = Naming {
        instance,
        picks,
        minute: minute.minutes(),
        earlier,
    };
    named_from(alloc, naming)
}
