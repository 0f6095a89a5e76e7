//! The types of train units, numbered in the order of the types table.

ghost use Rattle.std.specs.Prelude.{◌≡◌, ◌<◌, ◌≤◌, IsTrue, Some, length, slice_get};
ghost use Rattle.std.specs.List.{list_all};
ghost use Rattle.compositions.specs.UnitTypes.{is_within_limits};

use rail_base::TypeNo;
use rail_base::limits::MAX_TYPES;
pub use rules::UnitType;
use std::marker::Model;

/// The unit types of a day, at most six. A contract sees the list of them.
#[derive(Drop)]
pub struct UnitTypes {
    types: Vec<UnitType>,
}

impl Model for UnitTypes {
    ghost use Rattle.std.specs.Prelude.{List, IsTrue, length, ◌≤◌};
    ghost use Rattle.std.specs.List.{list_all};
    ghost use Rattle.rail_base.specs.declared.limits.TheConstants.{MAX_TYPES};
    ghost use Rattle.rules.specs.declared.records.UnitType.{UnitType};
    ghost use Rattle.compositions.specs.UnitTypes.{is_within_limits};

    ghost Value = { List UnitType };

    ghost view = { λ a. a.types.items };

    ghost invariant = { λ a. (length a.types.items ≤ MAX_TYPES) × IsTrue (list_all is_within_limits a.types.items) };
}

impl UnitTypes {
    /// These unit types: at most six, each with its numbers within the limits. It takes no memory.
    pub fn new(types: Vec<UnitType>) -> UnitTypes
        requires few { length types.items ≤ MAX_TYPES }
        requires limits { IsTrue (list_all is_within_limits types.items) }
        ensures { result ≡ types.items }
    {
        UnitTypes { types }
    }

    /// How many unit types there are.
    pub fn len(&self) -> u32
        ensures value { result ≡ length self.now }
        ensures few { result ≤ MAX_TYPES }
        ensures limits { IsTrue (list_all is_within_limits self.now) }
    {
        self.types.len() as u32
    }

    /// The unit types in order. It takes no memory.
    pub fn items(&self) -> &[UnitType]
        ensures { result.now ≡ self.now }
    {
        self.types.as_slice()
    }

    /// The unit type of this number, which is below `len`.
    pub fn get(&self, unit_type: TypeNo) -> &UnitType
        requires { unit_type < length self.now }
        ensures value { slice_get self.now unit_type ≡ Some result.now }
        ensures limits { IsTrue (is_within_limits result.now) }
    {
        &self.types[unit_type.place()]
    }
}
