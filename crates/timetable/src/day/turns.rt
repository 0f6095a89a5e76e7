//! How many units stay at a turn, of lists of units or of lists of types.

ghost use Rattle.std.specs.Prelude.{◌≡◌, ◌≤◌, length, map, Some, IfSome, option_map, option_and_then};
ghost use Rattle.timetable.specs.Links.{itself};
ghost use Rattle.timetable.specs.Turns.{may_shunt, parts_at, parts_beside, turn_parts};

use crate::day::trip_entry::TripEntry;
use rail_base::TypeNo;
use rail_base::limits::MAX_EXCHANGED;
use rules::{End, kept_length, staying};

/// Whether a turn may take so many units off and put so many on: it does one of the two, or, with exchange, few of
/// both.
fn may_shunt(exchange: bool, off: usize, on: usize) -> bool
    ensures { result ≡ may_shunt exchange off on }
{
    off == 0 || on == 0 || (exchange && off <= MAX_EXCHANGED && on <= MAX_EXCHANGED)
}

/// How many entries stay at a turn that keeps so many by their types, or nothing where other units stand at the kept
/// places or more are shunted than may be. The arriving list is the one after a reversal.
pub(crate) fn staying_at<E: TripEntry>(
    uncouple: End,
    couple: End,
    exchange: bool,
    kept: Option<usize>,
    arriving: &[E],
    departing: &[E],
) -> Option<usize>
    requires arriving { IfSome kept (λ n. n ≤ length arriving.now) }
    requires departing { IfSome kept (λ n. n ≤ length departing.now) }
    // What stays, goes and comes then are the parts of the turn.
    ensures parts { option_map (parts_beside uncouple couple (map E.number arriving.now) (map E.number departing.now))
        result
        ≡ option_and_then (parts_at uncouple couple exchange (map E.number arriving.now) (map E.number departing.now))
        kept }
    // As many stay as are kept.
    ensures kept { IfSome result (λ n. kept ≡ Some n) }
{
    let stay = kept?;
    if !E::are_same(
        staying(uncouple, arriving, stay),
        staying(couple, departing, stay),
    ) {
        return None;
    }
    if !may_shunt(exchange, arriving.len() - stay, departing.len() - stay) {
        return None;
    }
    Some(stay)
}

/// How many units stay at a turn between lists of types, or nothing where its rule is broken: where no list of types
/// fits it, or where more units would be uncoupled and coupled than may be. The arriving list is the one after a
/// reversal.
pub fn staying_units(
    uncouple: End,
    couple: End,
    exchange: bool,
    arriving: &[TypeNo],
    departing: &[TypeNo],
) -> Option<usize>
    // As many stay as the turn keeps.
    ensures number { result
        ≡ option_map (λ parts. length parts.kept)
        (turn_parts itself uncouple couple exchange arriving.now departing.now) }
    // What stays, goes and comes then are the parts of the turn, of types.
    ensures parts { option_map (parts_beside uncouple couple arriving.now departing.now) result
        ≡ turn_parts itself uncouple couple exchange arriving.now departing.now }
    // They are no more than stand in either list.
    ensures arriving { IfSome result (λ n. n ≤ length arriving.now) }
    ensures departing { IfSome result (λ n. n ≤ length departing.now) }
{
    let kept = kept_length(uncouple, couple, arriving, departing);
    staying_at::<TypeNo>(uncouple, couple, exchange, kept, arriving, departing)
}
