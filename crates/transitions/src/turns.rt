//! What a turn does to a train, by lists of types.

ghost use Rattle.std.specs.Prelude.{◌≡◌, ◌≤◌, ◌<◌, ◌++◌, ◌↔◌, length, List, ℕ};
ghost use Rattle.std.specs.Prelude.{Some};
ghost use Rattle.timetable.specs.Links.{turned};
ghost use Rattle.transitions.specs.Turns.{shunt_by_units, turn_shunt_of};

use crate::edge::Shunt;
use compositions::Composition;
use rail_base::TypeNo;
use rail_base::limits::MAX_COMPOSITION_UNITS;
use timetable::{LinkKind, beyond, staying_units};

/// The shunt of a turn between two lists of at most six types each, or nothing where the rule of the turn is broken,
/// and at a join or a split. The arriving list is the one after a reversal.
pub(crate) fn turn_shunt(kind: LinkKind, arriving: &[TypeNo], departing: &[TypeNo]) -> Option<Shunt>
    requires arriving { length arriving.now ≤ MAX_COMPOSITION_UNITS }
    requires departing { length departing.now ≤ MAX_COMPOSITION_UNITS }
    ensures { result ≡ turn_shunt_of kind arriving.now departing.now }
{
    let LinkKind::Turn {
        uncouple,
        couple,
        exchange,
        ..
    } = kind
    else {
        return None;
    };
    let stay = staying_units(uncouple, couple, exchange, arriving, departing)?;
    let given = beyond(uncouple, arriving, stay).len() as u8;
    let taken = beyond(couple, departing, stay).len() as u8;
    Some(shunt_by_units(given, taken))
}

/// What is done to a train where so many units are given to the yard and so many are taken from it.
fn shunt_by_units(given: u8, taken: u8) -> Shunt
    ensures { result ≡ shunt_by_units given taken }
{
    match (given, taken) {
        (0, 0) => Shunt::Keep,
        (0, units) => Shunt::Couple { units },
        (units, 0) => Shunt::Uncouple { units },
        (uncouple, couple) => Shunt::Exchange { uncouple, couple },
    }
}

/// A composition as it stands after the train has turned round, or not.
pub(crate) fn turned(reversed: bool, composition: &Composition) -> Composition
    ensures { result ≡ turned reversed composition.now }
{
    let units = timetable::turned(reversed, composition.units());
    let Some(turned) = Composition::of(units.as_slice()) else {
        unreachable!()
    };
    turned
}

/// What stands behind a front, or nothing where a whole of at most six types does not begin with the front or ends with
/// it.
pub(crate) fn rest_after(front: &[TypeNo], whole: &[TypeNo]) -> Option<Composition>
    requires { length whole.now ≤ MAX_COMPOSITION_UNITS }
    ensures { (rest : List ℕ) → (result ≡ Some rest) ↔ ((front.now ++ rest ≡ whole.now) × (1 ≤ length rest)) }
{
    Composition::of(whole.strip_prefix(front)?)
}
