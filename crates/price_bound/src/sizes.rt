//! How large slacks and priced values are, whatever their signs.

use rail_base::limits::{MAX_COMPOSITION_UNITS, MAX_STOCK, MAX_TRIPS};

/// The most that a slack is: a station has at the start of the day, or wants at its end, as many units of a type as a
/// stock row may say, and each trip gives or takes as many as a composition may have.
pub const MAX_SLACK: u64 = MAX_STOCK as u64 + MAX_COMPOSITION_UNITS as u64 * MAX_TRIPS as u64;
/// What the size of every priced value is below, under multipliers within their limits: the most that a day costs with
/// what changes add, and the most entries, each the most multiplier times the most slack, come to less together.
pub const MAX_PRICED_VALUE: u128 = 100_000_000_000_000_000_000;
