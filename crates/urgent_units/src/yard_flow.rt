//! Units at the start of the day, as a flow says which of them are brought to the depot and which legs are for these.

ghost use Rattle.std.specs.Prelude.{◌≡◌, ◌≤◌, ◌+◌, ◌++◌, ◌∷◌, [], length, map, IfOk, OnOk};
ghost use Rattle.urgent_units.specs.Legs.{all_legs};
ghost use Rattle.urgent_units.specs.YardFlow.{AreAtHome, aheads_from, marked_from, rider_at_home, taken_units};

use crate::legs::{Leg, Legs, UnitLegs};
use crate::swaps::{Ahead, MarkedLeg, Rider, Yards};
use crate::wish::Wish;
use flow_network::Arc;
use rail_base::{Minute, NoMemory, TripNo, UnitNo};
use rail_csv::UnitList;
use std::alloc::Global;
use timetable::NamedPlan;

/// The units of the type at home with their legs ahead of them, where the arcs of all legs and then those of the urgent
/// units come first.
pub(crate) fn yards_at_home(
    alloc: Global,
    plan: &NamedPlan,
    legs: &Legs,
    wish: &Wish,
    arcs: &[Arc],
) -> Result<Yards, NoMemory>
    requires { length (all_legs legs.now) + length wish.now.units ≤ length arcs.now }
    ensures { IfOk result (λ yards. AreAtHome plan.now legs.now wish.now arcs.now yards) }
{
    let homes = &arcs[leg_count(legs)..];
    let brought = brought_units(alloc, wish.units.items(), homes)?;
    Ok(Yards {
        plan: copy_of(alloc, plan)?,
        riders: riders_of(alloc, legs, &brought)?,
        aheads: aheads_of(alloc, legs, arcs)?,
    })
}

/// How many legs there are.
fn leg_count(legs: &Legs) -> usize
    ensures { result ≡ length (all_legs legs.now) }
{
    legs.limits();
    let units = legs.units();
    let mut count = 0;
    for unit in units {
        count += unit.legs.items().len();
    }
    count
}

/// Of these units those along whose arcs something goes.
fn brought_units(alloc: Global, units: &[UnitNo], arcs: &[Arc]) -> Result<Vec<UnitNo>, NoMemory>
    requires { length units.now ≤ length arcs.now }
    ensures { IfOk result (λ brought. brought.items ≡ taken_units units.now arcs.now) }
{
    let mut brought = Vec::new(alloc);
    for place in 0..units.len() {
        add_taken(&mut brought, units[place], &arcs[place])?;
    }
    Ok(brought)
}

/// Adds a unit, where something goes along its arc.
fn add_taken(brought: &mut Vec<UnitNo>, unit: UnitNo, arc: &Arc) -> Result<(), NoMemory>
    ensures { OnOk result (brought.new.items ≡ brought.old.items ++ taken_units (unit ∷ []) (arc.now ∷ [])) }
{
    if arc.flow > 0 {
        brought.push(unit)?;
    }
    Ok(())
}

/// The units of the type at home.
fn riders_of(alloc: Global, legs: &Legs, brought: &[UnitNo]) -> Result<Vec<Rider>, NoMemory>
    ensures { IfOk result (λ riders. riders.items ≡ map (rider_at_home brought.now) legs.now.units) }
{
    let units = legs.units();
    let mut riders = Vec::new(alloc);
    for unit in units {
        riders.push(rider_at_home(brought, unit))?;
    }
    Ok(riders)
}

/// A unit at home.
fn rider_at_home(brought: &[UnitNo], unit: &UnitLegs) -> Rider
    ensures { result ≡ rider_at_home brought.now unit.now }
{
    Rider {
        unit: unit.unit,
        is_brought: brought.contains(&unit.unit),
        station: unit.home,
        ready: Minute(0),
    }
}

/// The legs ahead of each unit.
fn aheads_of(alloc: Global, legs: &Legs, arcs: &[Arc]) -> Result<Vec<Ahead>, NoMemory>
    requires { length (all_legs legs.now) ≤ length arcs.now }
    ensures { IfOk result (λ aheads. aheads.items ≡ aheads_from legs.now.units arcs.now) }
{
    let units = legs.units();
    let mut aheads = Vec::new(alloc);
    let mut first = 0;
    for unit in units {
        let list = unit.legs.items();
        aheads.push(Ahead::of(marked_legs(alloc, list, &arcs[first..])?))?;
        first += list.len();
    }
    Ok(aheads)
}

/// Legs, each with whether something goes along its arc.
fn marked_legs(alloc: Global, legs: &[Leg], arcs: &[Arc]) -> Result<Vec<MarkedLeg>, NoMemory>
    requires { length legs.now ≤ length arcs.now }
    ensures { IfOk result (λ marked. marked.items ≡ marked_from legs.now arcs.now) }
{
    let mut marked = Vec::new(alloc);
    for place in 0..legs.len() {
        marked.push(MarkedLeg {
            leg: legs[place],
            is_brought: arcs[place].flow > 0,
        })?;
    }
    Ok(marked)
}

/// The same plan again.
fn copy_of(alloc: Global, plan: &NamedPlan) -> Result<NamedPlan, NoMemory>
    ensures { IfOk result (λ copy. copy ≡ plan.now) }
{
    let mut lists = Vec::new(alloc);
    for number in 0..plan.trips() {
        let list = plan.units(TripNo(number)).to_vec(alloc)?;
        lists.push(UnitList::of(list))?;
    }
    Ok(NamedPlan::of(lists))
}
