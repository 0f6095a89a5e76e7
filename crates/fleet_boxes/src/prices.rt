//! What units cost: a price for each type.

ghost use Rattle.std.specs.Prelude.{◌≡◌, ◌≤◌, ◌<◌, ◌^◌, length, pos};
ghost use Rattle.std.specs.List.{All};
ghost use Rattle.rail_base.specs.declared.limits.TheConstants.{MAX_UNITS};
ghost use Rattle.fleets.specs.Fleets.{fleet_size};
ghost use Rattle.fleet_boxes.specs.Prices.{cost_from, fleet_cost, price_at};
ghost use Rattle.fleet_boxes.specs.declared.prices.TheConstants.{MAX_PRICE};

use fleets::Counts;
use rail_base::Money;
use rail_base::limits::MAX_UNITS;
use std::marker::Model;

/// The most that one unit may cost: a number of nine digits.
pub const MAX_PRICE: u32 = 999_999_999;

/// The cost of one unit of each type, by type: none is more than `MAX_PRICE`. A contract sees the list of them.
#[derive(Drop)]
pub struct Prices {
    costs: Vec<u32>,
}

impl Model for Prices {
    ghost use Rattle.std.specs.Prelude.{List, ℕ, ◌≤◌};
    ghost use Rattle.std.specs.List.{All};
    ghost use Rattle.fleet_boxes.specs.declared.prices.TheConstants.{MAX_PRICE};

    ghost Value = { List ℕ };

    ghost view = { λ a. a.costs.items };

    ghost invariant = { λ a. All (λ cost. cost ≤ MAX_PRICE) a.costs.items };
}

impl Prices {
    /// These costs, by type: none is more than `MAX_PRICE`. It takes no memory.
    pub fn of(costs: Vec<u32>) -> Prices
        requires { All (λ cost. cost ≤ MAX_PRICE) costs.items }
        ensures { result ≡ costs.items }
    {
        Prices { costs }
    }

    /// The costs by type. It takes no memory.
    pub fn items(&self) -> &[u32]
        ensures { result.now ≡ self.now }
    {
        self.costs.as_slice()
    }

    /// What all units of a fleet cost together, as the law `fleets_cost_their_units` tells. The fleet has no more units
    /// than a day may have, and there is a price unless the fleet has no places. So it is less than 2^64.
    pub fn of_fleet(&self, fleet: &Counts) -> Money
        requires prices { 0 < length fleet.now → 0 < length self.now }
        requires few { fleet_size fleet.now ≤ MAX_UNITS }
        ensures value { result.0 ≡ pos (fleet_cost self.now fleet.now) }
        ensures small { fleet_cost self.now fleet.now < 2 ^ 64 }
    {
        let mut cost: u64 = 0;
        for place in 0..fleet.len() {
            cost += u64::from(fleet.at(place)) * u64::from(self.at(place));
        }
        Money(cost as i128)
    }

    /// What one unit at a place costs: the price of the type whose place it is.
    fn at(&self, place: u32) -> u32
        requires { 0 < length self.now }
        ensures value { result ≡ price_at self.now place }
        ensures few { result ≤ MAX_PRICE }
    {
        self.costs[place as usize % self.costs.len()]
    }
}
