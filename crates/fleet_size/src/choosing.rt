//! Which box is split next, and where.

ghost use Rattle.std.specs.Prelude.{All, ◌≡◌, ◌-◌, ◌<◌, ◌≤◌, ◌⊎◌, length, get_or, slice_index};
ghost use Rattle.std.specs.Prelude.{Some, None, MatchOption};
ghost use Rattle.fleets.specs.Fleets.{IsNowhereAbove};
ghost use Rattle.fleet_size.specs.declared.slots.Slot.{Slot};
ghost use Rattle.fleet_size.specs.Slots.{IsNext, IsWideAt, is_cheaper, price_in};
ghost use Rattle.fleet_size.specs.Values.{CanBeValued, IsDone, value_at};

use crate::offers::{Best, plus};
use crate::slots::Slot;
use fleet_boxes::{BoxNode, FleetBox, Prices};
use rail_base::Money;

/// A box that may be split.
#[derive(Clone, Copy)]
pub(crate) struct Next {
    /// The value of its leaf.
    pub(crate) value: Money,
    /// How many slots were made before its own.
    pub(crate) made: u32,
    /// The slot.
    pub(crate) slot: usize,
    /// The first place of greatest width.
    pub(crate) place: u32,
}

/// The next box to be split: of the open ones with more than one fleet that of least value, and of these the one that
/// was made earliest.
pub(crate) fn next_open(prices: &Prices, slots: &[Slot], best: &Option<Best>) -> Option<Next>
    requires { All (CanBeValued prices.now) slots.now }
    ensures { MatchOption result (All (IsDone prices.now (price_in best.now)) slots.now) (IsNext slots.now) }
{
    let mut next: Option<Next> = None;
    for slot in 0..slots.len() {
        next = earlier(splittable(prices, slots, slot, best), next);
    }
    next
}

/// The box of a slot, where it is that of an open leaf and has more than one fleet.
fn splittable(prices: &Prices, slots: &[Slot], slot: usize, best: &Option<Best>) -> Option<Next>
    requires all { All (CanBeValued prices.now) slots.now }
    requires slot { slot < length slots.now }
    ensures { MatchOption result
        ((one : Slot) → one ≡ get_or slots.now slot one → IsDone prices.now (price_in best.now) one)
        (IsNext slots.now) }
{
    let Some(value) = value_of(prices, &slots[slot]) else {
        return None;
    };
    if !is_open(value, best) {
        return None;
    }
    let Some(place) = widest(&slots[slot].fleets) else {
        return None;
    };
    Some(Next {
        value,
        made: slots[slot].made,
        slot,
        place,
    })
}

/// Of two boxes, where both are there, that of lower value, and of the same value that which was made earlier.
fn earlier(found: Option<Next>, next: Option<Next>) -> Option<Next>
    ensures { MatchOption result ((found ≡ None) × (next ≡ None)) (λ one. (found ≡ Some one) ⊎ (next ≡ Some one)) }
{
    let Some(other) = next else {
        return found;
    };
    let Some(one) = found else {
        return next;
    };
    if one.value.0 < other.value.0 || (one.value.0 == other.value.0 && one.made < other.made) {
        found
    } else {
        next
    }
}

/// What every plan of the fleets of a leaf's box costs at the least, with its units; none at another node.
pub(crate) fn value_of(prices: &Prices, slot: &Slot) -> Option<Money>
    requires { CanBeValued prices.now slot.now }
    ensures { result ≡ value_at prices.now slot.now }
{
    match &slot.node {
        BoxNode::Bound { bound, .. } => { Some(plus(*bound, prices.of_fleet(&slot.fleets.least))) }
        _ => None,
    }
}

/// Whether a value is below what the best costs.
fn is_open(value: Money, best: &Option<Best>) -> bool
    ensures { result ≡ is_cheaper value.0 (price_in best.now) }
{
    match best {
        Some(best) => value.0 < best.price.0,
        None => true,
    }
}

/// The first place of greatest width of a box with more than one fleet.
fn widest(fleets: &FleetBox) -> Option<u32>
    requires { IsNowhereAbove fleets.now.least fleets.now.greatest }
    ensures { MatchOption result (fleets.now.least ≡ fleets.now.greatest) (IsWideAt fleets.now) }
{
    let mut widest: Option<u32> = None;
    for place in 0..fleets.least.len() {
        widest = wider(fleets, place, widest);
    }
    widest
}

/// The place where a box is wider: the one that is so far the widest, if there is one, or another.
fn wider(fleets: &FleetBox, place: u32, widest: Option<u32>) -> Option<u32>
    requires least { place < length fleets.now.least }
    requires greatest { place < length fleets.now.greatest }
    requires widest { MatchOption widest (Unit {0}) (IsWideAt fleets.now) }
    ensures { MatchOption result
        ((widest ≡ None) × (slice_index fleets.now.greatest place ≤ slice_index fleets.now.least place))
        (IsWideAt fleets.now) }
{
    let best = match widest {
        Some(widest) => width(fleets, widest),
        None => 0,
    };
    if width(fleets, place) > best {
        Some(place)
    } else {
        widest
    }
}

/// How many units more the greatest fleet of a box has at a place than the least.
fn width(fleets: &FleetBox, place: u32) -> u32
    requires least { place < length fleets.now.least }
    requires greatest { place < length fleets.now.greatest }
    ensures { result ≡ slice_index fleets.now.greatest place - slice_index fleets.now.least place }
{
    fleets
        .greatest
        .at(place)
        .saturating_sub(fleets.least.at(place))
}
