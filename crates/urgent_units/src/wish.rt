//! The wish of a morning: urgent units of one type, and the depot where they are to end the day.

ghost use Rattle.std.specs.Prelude.{◌≡◌};

use rail_base::{StationNo, TypeNo, UnitNo};
use std::marker::Model;

/// Units by number. A contract sees the list of them. They come from `Wish::read` alone.
#[derive(Drop)]
pub struct WishUnits {
    pub(crate) units: Vec<UnitNo>,
}

impl Model for WishUnits {
    ghost use Rattle.std.specs.Prelude.{List, ℕ};

    ghost Value = { List ℕ };

    ghost view = { λ a. a.units.items };
}

impl WishUnits {
    /// The units in the order of their rows. It takes no memory.
    pub fn items(&self) -> &[UnitNo]
        ensures { result.now ≡ self.now }
    {
        self.units.as_slice()
    }
}

/// Which units are urgent, and where they are to end the day.
#[derive(Drop)]
pub struct Wish {
    /// The type of all of them.
    pub unit_type: TypeNo,
    /// The station where they are to end the day.
    pub depot: StationNo,
    /// The urgent units, each once.
    pub units: WishUnits,
}

/// What a row says.
#[derive(Clone, Copy)]
pub(crate) struct WishRow {
    /// The urgent unit.
    pub(crate) unit: UnitNo,
    /// The station where it is to end the day.
    pub(crate) depot: StationNo,
}
