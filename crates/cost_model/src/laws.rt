//! What holds of every day and all compositions for its trips.
//!
//! A law is the contract of a function that does nothing.

ghost use Rattle.cost_model.specs.Sums.{AddUp};
ghost use Rattle.cost_model.specs.WithoutExchange.{CostsByLength};

/// The carriages, the missing seats and the shunting of a day add up to its cost.
pub fn parts_add_up()
    ensures law { AddUp }
{}

/// Where no turn has an exchange and every turn keeps its rule over the types of its trips, a day costs shunting once
/// for each turn whose two lists differ in length, and for no other.
pub fn turns_cost_by_length()
    ensures law { CostsByLength }
{}
