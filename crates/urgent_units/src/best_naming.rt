//! A plan that brings as many urgent units to the depot as can be, and the cut that shows that no other brings more.

ghost use Rattle.std.specs.Prelude.{IfOk};
ghost use Rattle.timetable.specs.Running.{IsPlan, Runs};
ghost use Rattle.urgent_units.specs.Answers.{BringsMost, StopsAsSimulated};
ghost use Rattle.urgent_units.specs.Wishes.{IsWish};

use crate::cut::YardCut;
use crate::legs::Legs;
use crate::refusal::UrgentRefusal;
use crate::swaps::exchange_all;
use crate::wish::Wish;
use crate::yard_flow::yards_at_home;
use crate::yard_network::network_of;
use day_simulator::{SimulateRefusal, simulate};
use rail_base::NoMemory;
use std::alloc::Global;
use timetable::{Instance, NamedPlan};

/// A plan with units swapped, and what it comes to.
#[derive(Drop)]
pub struct Swapped {
    /// The plan.
    pub plan: NamedPlan,
    /// How many urgent units end the day at the depot by it.
    pub count: u32,
    /// A yard cut, over the legs of the plan that was given, that is worth as many.
    pub cut: YardCut,
}

/// The greatest number of urgent units that can end the day at the depot, where each trip keeps the types of its list
/// and the plan runs: a plan that brings so many, and a yard cut that shows that none brings more. The plan and the
/// wish are of this day.
///
/// Refusals: `Stops`, exactly where the plan that was given does not run, with the first fault of its simulation;
/// `NoMemory`.
pub fn urgent(
    alloc: Global,
    instance: &Instance,
    plan: &NamedPlan,
    wish: &Wish,
) -> Result<Swapped, UrgentRefusal>
    requires plan { IsPlan instance.now plan.now }
    requires wish { IsWish instance.now wish.now }
    ensures most { IfOk result (λ swapped. BringsMost instance.now plan.now wish.now swapped) }
    ensures stops { StopsAsSimulated instance.now plan.now result }
{
    match simulate(alloc, instance, plan) {
        Ok(_) => Ok(best_swaps(alloc, instance, plan, wish)?),
        Err(SimulateRefusal::Stops(fault)) => Err(UrgentRefusal::Stops(fault)),
        Err(SimulateRefusal::NoMemory) => Err(UrgentRefusal::NoMemory),
    }
}

/// The same for a plan that runs.
fn best_swaps(
    alloc: Global,
    instance: &Instance,
    plan: &NamedPlan,
    wish: &Wish,
) -> Result<Swapped, NoMemory>
    requires runs { Runs instance.now plan.now }
    requires wish { IsWish instance.now wish.now }
    ensures { IfOk result (λ swapped. BringsMost instance.now plan.now wish.now swapped) }
{
    instance.is_sound();
    let legs = Legs::build(alloc, instance, plan, wish.unit_type)?;
    legs.limits();
    let mut network = network_of(alloc, instance, &legs, wish)?;
    let reached = network.fill(alloc)?;
    let cut = YardCut::of_reached(alloc, &legs, &reached)?;
    let Some(count) = legs.value(instance, wish, &cut) else {
        unreachable!()
    };
    let mut yards = yards_at_home(alloc, plan, &legs, wish, network.arcs())?;
    exchange_all(alloc, instance, &mut yards)?;
    Ok(Swapped {
        plan: yards.plan,
        count,
        cut,
    })
}
