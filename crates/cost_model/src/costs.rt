//! What a day costs, whole and in its three parts: with picks, and with a plan.

ghost use Rattle.std.specs.Prelude.{◌≡◌, ◌<◌, ◌≤◌, ◌*◌, ◌+ℤ◌, ◌≤ℤ◌, length, pos};
ghost use Rattle.timetable.specs.Cost.{link_cost, cost_of, plan_cost};
ghost use Rattle.timetable.specs.Running.{IsPlan};
ghost use Rattle.timetable.specs.Picks.{ArePicks, picked};
ghost use Rattle.cost_model.specs.Sums.{carriage_of, shortage_of, shunting_of};

use crate::links::{MAX_LINK_COST, link_cost};
use crate::lists::TypeLists;
use crate::trips::{
    MAX_CARRIAGE_COST, MAX_SHORTAGE_COST, MAX_TRIP_COST, carriage_cost, shortage_cost,
};
use rail_base::limits::{MAX_LINKS, MAX_TRIPS};
use rail_base::{LinkNo, Money, TripNo};
use timetable::{Instance, NamedPlan, Picks};

/// No day costs more, in the unit of the weights: the bound of each trip, and of each link.
pub const MAX_DAY_COST: u64 = MAX_TRIP_COST * MAX_TRIPS as u64 + MAX_LINK_COST * MAX_LINKS as u64;

/// The three parts that add up to the cost of picks. None is negative.
#[derive(Clone, Copy)]
pub struct CostParts {
    /// The carriages of all trips, each for the kilometres of its trip, at the weight of a carriage.
    pub carriage: Money,
    /// The missing seats of all trips, of both classes, each for the kilometres of its trip, at the weight of a missing
    /// seat.
    pub shortage: Money,
    /// The turns that couple or uncouple units, each at the weight of shunting.
    pub shunting: Money,
}

/// The cost of picks. There is one for each trip, and each is the number of a composition of the catalogue; they need
/// neither fit the platforms nor follow the rules of the links. It takes no memory.
pub fn cost(instance: &Instance, picks: &Picks) -> Money
    requires { ArePicks instance.now picks.now }
    ensures cost { result.0 ≡ pos (cost_of instance.now (picked instance.now picks.now)) }
    ensures range { result.0 ≤ℤ pos MAX_DAY_COST }
{
    whole_cost(instance, picks)
}

/// The parts of the cost of picks. There is one for each trip, and each is the number of a composition of the
/// catalogue; they need neither fit the platforms nor follow the rules of the links. It takes no memory.
pub fn parts(instance: &Instance, picks: &Picks) -> CostParts
    requires { ArePicks instance.now picks.now }
    ensures carriage { result.carriage.0 ≡ pos (carriage_of instance.now (picked instance.now picks.now)) }
    ensures shortage { result.shortage.0 ≡ pos (shortage_of instance.now (picked instance.now picks.now)) }
    ensures shunting { result.shunting.0 ≡ pos (shunting_of instance.now (picked instance.now picks.now)) }
    ensures whole { result.carriage.0 +ℤ result.shortage.0 +ℤ result.shunting.0
        ≡ pos (cost_of instance.now (picked instance.now picks.now)) }
{
    CostParts {
        carriage: money(carriages_cost(instance, picks)),
        shortage: money(shortages_cost(instance, picks)),
        shunting: money(links_cost(instance, picks)),
    }
}

/// The cost of a plan of the day, whether it runs or not. It takes no memory.
pub fn plan_cost(instance: &Instance, plan: &NamedPlan) -> Money
    requires { IsPlan instance.now plan.now }
    ensures { result.0 ≡ pos (plan_cost instance.now plan.now) }
{
    whole_cost(instance, plan)
}

/// The cost of a day with these lists of types.
fn whole_cost<L: TypeLists>(instance: &Instance, lists: &L) -> Money
    requires { L.are_of lists.now instance.now }
    ensures cost { result.0 ≡ pos (cost_of instance.now (L.lists lists.now instance.now)) }
    ensures range { result.0 ≤ℤ pos MAX_DAY_COST }
{
    money(
        carriages_cost(instance, lists)
            + shortages_cost(instance, lists)
            + links_cost(instance, lists),
    )
}

/// What the carriages of all trips cost.
#[tactic(auto, unfolding(crate::specs::Sums::carriage_of))]
fn carriages_cost<L: TypeLists>(instance: &Instance, lists: &L) -> u64
    requires { L.are_of lists.now instance.now }
    ensures cost { result ≡ carriage_of instance.now (L.lists lists.now instance.now) }
    ensures range { result ≤ MAX_CARRIAGE_COST * MAX_TRIPS }
{
    let mut cost = 0;
    for number in 0..instance.trips() {
        let trip = TripNo(number);
        let types = lists.types_on(instance, trip);
        cost += carriage_cost(instance, trip, types.as_slice());
    }
    cost
}

/// What the missing seats of all trips cost.
#[tactic(auto, unfolding(crate::specs::Sums::shortage_of))]
fn shortages_cost<L: TypeLists>(instance: &Instance, lists: &L) -> u64
    requires { L.are_of lists.now instance.now }
    ensures cost { result ≡ shortage_of instance.now (L.lists lists.now instance.now) }
    ensures range { result ≤ MAX_SHORTAGE_COST * MAX_TRIPS }
{
    let mut cost = 0;
    for number in 0..instance.trips() {
        let trip = TripNo(number);
        let types = lists.types_on(instance, trip);
        cost += shortage_cost(instance, trip, types.as_slice());
    }
    cost
}

/// What all links cost.
#[tactic(auto, unfolding(crate::specs::Sums::shunting_of))]
fn links_cost<L: TypeLists>(instance: &Instance, lists: &L) -> u64
    requires { L.are_of lists.now instance.now }
    ensures cost { result ≡ shunting_of instance.now (L.lists lists.now instance.now) }
    ensures range { result ≤ MAX_LINK_COST * MAX_LINKS }
{
    let mut cost = 0;
    for number in 0..instance.links() {
        cost += cost_of_link(instance, lists, LinkNo(number));
    }
    cost
}

/// What a link costs.
fn cost_of_link<L: TypeLists>(instance: &Instance, lists: &L, link: LinkNo) -> u64
    requires lists { L.are_of lists.now instance.now }
    requires link { link < length instance.now.links }
    ensures cost { result ≡ link_cost instance.now link (L.lists lists.now instance.now) }
    ensures range { result ≤ MAX_LINK_COST }
{
    let kind = &instance.link(link).kind;
    let arriving = lists.types_on(instance, kind.leads_from());
    let departing = lists.types_on(instance, kind.leads_to());
    link_cost(instance, link, arriving.as_slice(), departing.as_slice())
}

/// A cost as an amount of money.
fn money(cost: u64) -> Money
    ensures { result.0 ≡ pos cost }
{
    Money(i128::from(cost))
}
