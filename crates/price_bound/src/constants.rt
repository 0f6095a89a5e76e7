//! What multipliers add whatever the picks.

ghost use Rattle.std.specs.Prelude.{ℕ, ◌≡◌, ◌≤◌, ◌*◌, ◌-ℤ◌, ◌*ℤ◌, pos, neg_ℤ, unsigned_abs};
ghost use Rattle.timetable.specs.Indices.{IsPlace};
ghost use Rattle.price_bound.specs.CellSizes.{IsSmall, most_number};
ghost use Rattle.price_bound.specs.Regrouped.{constant_by};

use rail_base::Money;
use rail_base::limits::MAX_MULTIPLIER;
use timetable::{Instance, Place};

/// What the multiplier of a place adds whatever the picks.
pub(crate) fn constant_by(instance: &Instance, place: &Place, value: i64) -> Money
    requires place { IsPlace instance.now place.now }
    requires size { unsigned_abs value ≤ MAX_MULTIPLIER }
    ensures value { result.0 ≡ constant_by instance.now place.now value }
    ensures small { IsSmall (MAX_MULTIPLIER * most_number) result.0 }
{
    match *place {
        Place::Lambda {
            station,
            unit_type,
            ..
        } => times(value, negated(instance.start(station, unit_type))),
        Place::Mu { station, unit_type } => {
            let start = instance.start(station, unit_type);
            times(value, difference(instance.end(station, unit_type), start))
        }
        Place::Sigma { .. } => Money(0),
    }
}

/// Minus a number of units.
fn negated(units: u32) -> Money
    ensures value { result.0 ≡ neg_ℤ (pos units) }
    ensures small { IsSmall most_number result.0 }
{
    Money(-i128::from(units))
}

/// A number of units less another.
fn difference(units: u32, other: u32) -> Money
    ensures value { result.0 ≡ pos units -ℤ pos other }
    ensures small { IsSmall most_number result.0 }
{
    Money(i128::from(units) - i128::from(other))
}

/// A multiplier times a number of units.
fn times(value: i64, units: Money) -> Money
    requires size { unsigned_abs value ≤ MAX_MULTIPLIER }
    requires units { IsSmall most_number units.0 }
    ensures value { result.0 ≡ value *ℤ units.0 }
    ensures small { IsSmall (MAX_MULTIPLIER * most_number) result.0 }
{
    Money(i128::from(value) * units.0)
}
