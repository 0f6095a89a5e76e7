//! Sums of what plans and units cost.

ghost use Rattle.std.specs.Prelude.{◌≡◌, ◌≤◌, ◌+ℤ◌, unsigned_abs};
ghost use Rattle.price_bound.specs.declared.sizes.TheConstants.{MAX_PRICED_VALUE};

use price_bound::MAX_PRICED_VALUE;
use rail_base::Money;

/// An amount, a cost or a bound of plans, and what units cost, together. Neither is above `MAX_PRICED_VALUE` in size.
pub fn with_units(amount: Money, unit_costs: Money) -> Money
    requires amount { unsigned_abs amount.0 ≤ MAX_PRICED_VALUE }
    requires unit_costs { unsigned_abs unit_costs.0 ≤ MAX_PRICED_VALUE }
    ensures { result.0 ≡ amount.0 +ℤ unit_costs.0 }
{
    Money(amount.0 + unit_costs.0)
}
