//! A whole day, stepped in the fixed order.

ghost use Rattle.std.specs.Prelude.{◌≡◌, ◌<◌, length, IfOk, IsErrOf};
ghost use Rattle.std.specs.List.{All};
ghost use Rattle.timetable.specs.Running.{IsPlan, Runs};
ghost use Rattle.timetable.specs.Cost.{plan_cost};
ghost use Rattle.day_simulator.specs.State.{trip_of};
ghost use Rattle.day_simulator.specs.Calls.{IsCost, MakesSteps, Simulates};
ghost use Rattle.day_simulator.specs.Laws.{IsInTurn};

use crate::day::Day;
use crate::events::{DayEvent, StepFault};
use crate::sequence::fixed_order;
use rail_base::limits::{MAX_LINKS, MAX_TRIPS};
use rail_base::{Money, NoMemory};
use std::alloc::Global;
use thiserror::Error;
use timetable::{Instance, NamedPlan};

/// What a day that went through to its end tells.
#[derive(Clone, Copy)]
pub struct Ran {
    /// What the plan costs.
    pub cost: Money,
}

/// Why a day did not go through.
#[derive(Clone, Copy, Debug, Error)]
pub enum SimulateRefusal {
    /// The plan stops: the first fault in the fixed order.
    #[error("the day stops")]
    Stops(StepFault),
    /// Want of memory.
    #[error("out of memory")]
    NoMemory,
}

impl From<NoMemory> for SimulateRefusal {
    ghost use Rattle.std.specs.Prelude.{◌≡◌};
    ghost use Rattle.day_simulator.specs.declared.whole_day.SimulateRefusal.TheVariants as refusals;

    ghost from_gives = { λ _ e. e ≡ refusals.NoMemory };

    fn from(_error: NoMemory) -> SimulateRefusal {
        SimulateRefusal::NoMemory
    }
}

/// Steps a day's events by minute, arrivals before departures and then by trip number, and finishes it: but for want of
/// memory, its cost exactly where the plan runs, and else the first fault, which is never that an event is out of turn.
/// The plan is one of this day.
pub fn simulate(
    alloc: Global,
    instance: &Instance,
    plan: &NamedPlan,
) -> Result<Ran, SimulateRefusal>
    requires { IsPlan instance.now plan.now }
    ensures exact { Simulates instance.now plan.now result }
    ensures runs { IfOk result (λ ran. Runs instance.now plan.now × IsCost (plan_cost instance.now plan.now) ran.cost) }
    ensures stops { (fault : StepFault) →
        IsErrOf result (SimulateRefusal.Stops fault) → Runs instance.now plan.now → ⊥ }
    ensures in_turn { (fault : StepFault) → IsErrOf result (SimulateRefusal.Stops fault) → IsInTurn fault }
{
    // What these two calls ensure of trips and links is what the law of running asks of the day.
    prove!(instance.trips() as usize <= MAX_TRIPS);
    prove!(instance.links() as usize <= MAX_LINKS);
    let order = fixed_order(alloc, instance)?;
    let mut day = Day::new(alloc, instance, plan)?;
    if let Err(fault) = step_all(&mut day, order.as_slice()) {
        return Err(SimulateRefusal::Stops(fault));
    }
    match day.finish() {
        Ok(cost) => Ok(Ran { cost }),
        Err(fault) => Err(SimulateRefusal::Stops(fault)),
    }
}

/// Makes steps one after another, up to the first fault.
fn step_all(day: &mut Day<'_>, order: &[DayEvent]) -> Result<(), StepFault>
    requires { All (λ event. trip_of event < length day.old.day.trips) order.now }
    ensures { MakesSteps day.old order.now result day.new }
{
    for event in order {
        day.step(*event)?;
    }
    Ok(())
}
