//! Fleets and plans that are offered as the best: those of a day's answer, without the units that never leave.

ghost use Rattle.std.specs.Prelude.{int_lt};
ghost use Rattle.std.specs.Prelude.{◌≡◌, ◌≤◌, ◌≤ℤ◌, ◌+ℤ◌, option_map, pos, length, Some, IfOk, MatchOption, OnOk};
ghost use Rattle.rail_base.specs.declared.limits.TheConstants.{MAX_COMPOSITION_UNITS, MAX_TRIPS};
ghost use Rattle.timetable.specs.DayTables.{IsDayOfBytes};
ghost use Rattle.answer_text.specs.Limits.{IsAmount, IsHead};
ghost use Rattle.answer_check.specs.Headline.{IsTrueOf};
ghost use Rattle.fleets.specs.Fleets.{IsFleetOf, with_fleet};
ghost use Rattle.fleet_boxes.specs.Prices.{fleet_cost};
ghost use Rattle.fleet_check.specs.Chosen.{RunsAtPrice};
ghost use Rattle.fleet_check.specs.Verdicts.{price_said};
ghost use Rattle.fleet_size.specs.Slots.{IsBest, IsNoDearer, IsOffer, IsTaken, better_of, is_cheaper, price_in};

use answer_text::{Head, Runs};
use fleet_boxes::Prices;
use fleet_check::{Chosen, DayOfTables, cost_of};
use fleets::Counts;
use rail_base::{Money, NoMemory, StationNo, TripNo, TypeNo, UnitNo};
use rail_csv::UnitList;
use std::alloc::Global;
use timetable::{Instance, NamedPlan};

/// The best fleet so far with its plan, and what both cost.
#[derive(Drop)]
pub(crate) struct Best {
    pub(crate) chosen: Chosen,
    pub(crate) price: Money,
}

/// What an answer says of the day with a fleet.
#[derive(Drop)]
pub(crate) struct DayAnswer<'a> {
    /// The day with the fleet.
    pub(crate) day: &'a Instance,
    /// The fleet.
    pub(crate) fleet: &'a Counts,
    /// What is said of the plans of the day.
    pub(crate) head: Head,
    /// The units of each trip, where the head has a plan.
    pub(crate) runs: Runs,
}

/// A plan of the day with a fleet.
#[derive(Drop)]
struct Offer<'a> {
    /// The day with the fleet.
    day: &'a Instance,
    /// The fleet.
    fleet: &'a Counts,
    /// The plan, which runs.
    plan: NamedPlan,
    /// What it costs.
    cost: Money,
}

/// Takes the plan of an answer, where it has one, as the best where that costs less: with the units alone that leave
/// their yards. The error is want of memory.
pub(crate) fn take_plan(
    alloc: Global,
    tables: DayOfTables<'_>,
    prices: &Prices,
    answer: DayAnswer<'_>,
    best: &mut Option<Best>,
) -> Result<(), NoMemory>
    requires made { IsDayOfBytes tables.bytes.now tables.instance.now }
    requires prices { length prices.now ≡ length tables.instance.now.types }
    requires day { answer.day.now ≡ with_fleet answer.fleet.now tables.instance.now }
    requires fleet { IsFleetOf tables.instance.now answer.fleet.now }
    requires holds { IsTrueOf answer.day.now answer.head answer.runs }
    requires amounts { IsHead answer.head }
    requires few { length answer.runs ≤ MAX_TRIPS }
    requires best { IsBest tables.instance.now prices.now best.old }
    ensures best { OnOk result (IsBest tables.entry.instance.now prices.now best.new) }
    ensures no_dearer { OnOk result (IsNoDearer (price_in best.old) (price_in best.new)) }
    ensures taken { OnOk result (IsTaken prices.now answer.entry.fleet.now answer.entry.head (price_in best.new)) }
{
    let DayAnswer {
        day,
        fleet,
        head,
        runs,
    } = answer;
    let Some(cost) = cost_said(head) else {
        return Ok(());
    };
    let offer = Offer {
        day,
        fleet,
        plan: NamedPlan::of(runs.into_items()),
        cost,
    };
    let offered = best_of(alloc, tables, prices, offer)?;
    keep_better(offered, best);
    Ok(())
}

/// The cost that a head says of its plan.
fn cost_said(head: Head) -> Option<Money>
    ensures { option_map (λ cost. cost.0) result ≡ price_said head }
{
    match head {
        Head::Optimal { cost } | Head::BoundedPlan { cost, .. } => Some(cost),
        Head::Infeasible | Head::Bounded { .. } => None,
    }
}

/// Keeps what is offered as the best where it costs less.
fn keep_better(offered: Best, best: &mut Option<Best>)
    ensures { best.new ≡ better_of offered best.old }
{
    if !is_better(offered.price, best) {
        return;
    }
    *best = Some(offered);
}

/// What an offer comes to: its plan with the units alone that leave their yards, where that runs and costs no more, and
/// else as it is. The error is want of memory.
fn best_of(
    alloc: Global,
    tables: DayOfTables<'_>,
    prices: &Prices,
    offer: Offer<'_>,
) -> Result<Best, NoMemory>
    requires made { IsDayOfBytes tables.bytes.now tables.instance.now }
    requires prices { length prices.now ≡ length tables.instance.now.types }
    requires day { offer.day.now ≡ with_fleet offer.fleet.now tables.instance.now }
    requires offer { IsOffer tables.instance.now offer.fleet.now offer.plan offer.cost.0 }
    ensures runs { IfOk result (λ best.
        RunsAtPrice tables.entry.instance.now prices.now (Some best.chosen) best.price.0) }
    ensures cheap { IfOk result (λ best. best.price.0 ≤ℤ
        (offer.entry.cost.0 +ℤ pos (fleet_cost prices.now offer.entry.fleet.now))) }
{
    // What is known of an accepted day.
    tables.instance.is_sound();
    let whole = plus(offer.cost, prices.of_fleet(offer.fleet));
    let trimmed = trimmed(alloc, &offer)?;
    if let Some(price) = price_of(alloc, tables, prices, &trimmed, offer.cost, whole)? {
        return Ok(Best {
            chosen: trimmed,
            price,
        });
    }
    let stock = offer.fleet.copy(alloc)?;
    Ok(Best {
        chosen: Chosen {
            stock,
            plan: offer.plan,
        },
        price: whole,
    })
}

/// What a chosen plan costs with its fleet, where it runs and costs no more than `most` without its units and no more
/// than `whole` with them. The error is want of memory.
fn price_of(
    alloc: Global,
    tables: DayOfTables<'_>,
    prices: &Prices,
    chosen: &Chosen,
    most: Money,
    whole: Money,
) -> Result<Option<Money>, NoMemory>
    requires made { IsDayOfBytes tables.bytes.now tables.instance.now }
    requires prices { length prices.now ≡ length tables.instance.now.types }
    requires most { IsAmount most.0 }
    ensures { IfOk result (λ price. MatchOption price (Unit {0})
        (λ price. RunsAtPrice tables.entry.instance.now prices.now (Some chosen.now) price.0
        × (price.0 ≤ℤ whole.0))) }
{
    // What is known of an accepted day.
    tables.instance.is_sound();
    let Some(cost) = cost_of(alloc, &tables, chosen)? else {
        return Ok(None);
    };
    let dearer = is_less(most, cost);
    if dearer {
        return Ok(None);
    }
    let price = plus(cost, prices.of_fleet(&chosen.stock));
    let beyond = is_less(whole, price);
    if beyond {
        return Ok(None);
    }
    Ok(Some(price))
}

/// Whether an amount is less than another.
fn is_less(one: Money, other: Money) -> bool
    ensures { result ≡ int_lt one.0 other.0 }
{
    one.0 < other.0
}

/// The sum of two amounts.
pub(crate) fn plus(one: Money, other: Money) -> Money
    requires one { IsAmount one.0 }
    requires other { IsAmount other.0 }
    ensures { result.0 ≡ one.0 +ℤ other.0 }
{
    Money(one.0 + other.0)
}

/// Whether so much is less than the best costs.
fn is_better(price: Money, best: &Option<Best>) -> bool
    ensures { result ≡ is_cheaper price.0 (price_in best.now) }
{
    match best {
        Some(best) => price.0 < best.price.0,
        None => true,
    }
}

/// The plan of an offer and its fleet with the units alone that leave their yards, by the numbers that they have then.
/// The error is want of memory.
fn trimmed(alloc: Global, offer: &Offer<'_>) -> Result<Chosen, NoMemory> {
    let leaves = leaving(alloc, offer.day, &offer.plan)?;
    let stock = leaving_fleet(alloc, offer.day, &leaves)?;
    let plan = with_leaving_alone(alloc, &offer.plan, &leaves)?;
    Ok(Chosen { stock, plan })
}

/// For each unit of a day whether a plan has it on a trip. The error is want of memory.
fn leaving(alloc: Global, day: &Instance, plan: &NamedPlan) -> Result<Vec<bool>, NoMemory> {
    let mut leaves = vec![in alloc; false; day.units() as usize]?;
    for trip in 0..plan.trips() {
        for unit in plan.units(TripNo(trip)) {
            if let Some(leaves) = leaves.get_mut(unit.place()) {
                *leaves = true;
            }
        }
    }
    Ok(leaves)
}

/// Whether a unit is one of those that leave.
fn does_leave(leaves: &[bool], unit: UnitNo) -> bool {
    match leaves.get(unit.place()) {
        Some(leaves) => *leaves,
        None => false,
    }
}

/// The fleet of the units of a day that leave. The error is want of memory.
fn leaving_fleet(alloc: Global, day: &Instance, leaves: &[bool]) -> Result<Counts, NoMemory> {
    let types = day.types().len();
    let mut counts = Vec::new(alloc);
    for place in 0..day.stations() * types {
        counts.push(leaving_from(day, leaves, StationNo(place / types), TypeNo(place % types)))?;
    }
    Ok(Counts::of(counts))
}

/// How many units of a type leave that are at home at a station.
fn leaving_from(day: &Instance, leaves: &[bool], station: StationNo, unit_type: TypeNo) -> u32 {
    let mut count = 0;
    for number in 0..day.units() {
        let unit = day.unit(UnitNo(number));
        if unit.home == station
            && unit.unit_type == unit_type
            && does_leave(leaves, UnitNo(number))
        {
            count += 1;
        }
    }
    count
}

/// A plan with the numbers that its units have where those alone are there that leave. The error is want of memory.
fn with_leaving_alone(
    alloc: Global,
    plan: &NamedPlan,
    leaves: &[bool],
) -> Result<NamedPlan, NoMemory> {
    let mut lists = Vec::new(alloc);
    for trip in 0..plan.trips() {
        lists.push(leaving_alone(alloc, plan.units(TripNo(trip)), leaves)?)?;
    }
    Ok(NamedPlan::of(lists))
}

/// The units of a trip with those numbers. The error is want of memory.
fn leaving_alone(alloc: Global, units: &[UnitNo], leaves: &[bool]) -> Result<UnitList, NoMemory>
    requires { length units.now ≤ MAX_COMPOSITION_UNITS }
{
    let mut list = Vec::new(alloc);
    for place in 0..units.len() {
        list.push(UnitNo(leaving_before(leaves, units[place])))?;
    }
    Ok(UnitList::of(list))
}

/// How many units with smaller numbers leave.
fn leaving_before(leaves: &[bool], unit: UnitNo) -> u32 {
    let mut before = 0;
    for other in 0..unit.0 {
        if does_leave(leaves, UnitNo(other)) {
            before += 1;
        }
    }
    before
}
