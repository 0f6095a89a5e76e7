//! Numbers that tell what they count. A contract sees each as the number itself.

ghost use Rattle.std.specs.Prelude.{◌≡◌, ℕ, ◌<◌, ◌^◌};

use std::marker::Model;

/// The number of a station, counted from 0 in the order of the stations table.
#[derive(Clone, Copy, Debug, PartialEq, Eq, PartialOrd, Ord)]
pub struct StationNo(pub u32);

impl Model for StationNo {
    ghost Value = { ℕ };

    ghost view = { λ a. a.0 };

    ghost inverse = { λ n. record { 0 = n } };
}

impl StationNo {
    /// The number as a place in a list.
    pub fn place(self) -> usize
        ensures number { result ≡ self }
        ensures range { result < 2 ^ 32 }
    {
        self.0 as usize
    }
}

/// The number of a unit type, counted from 0 in the order of the types table.
#[derive(Clone, Copy, Debug, Default, PartialEq, Eq, PartialOrd, Ord)]
pub struct TypeNo(pub u32);

impl Model for TypeNo {
    ghost Value = { ℕ };

    ghost view = { λ a. a.0 };

    ghost inverse = { λ n. record { 0 = n } };
}

impl TypeNo {
    /// The number as a place in a list.
    pub fn place(self) -> usize
        ensures number { result ≡ self }
        ensures range { result < 2 ^ 32 }
    {
        self.0 as usize
    }
}

/// The number of a trip, counted from 0 in the order of the trips table.
#[derive(Clone, Copy, Debug, PartialEq, Eq)]
pub struct TripNo(pub u32);

impl Model for TripNo {
    ghost Value = { ℕ };

    ghost view = { λ a. a.0 };

    ghost inverse = { λ n. record { 0 = n } };
}

impl TripNo {
    /// The number as a place in a list.
    pub fn place(self) -> usize
        ensures number { result ≡ self }
        ensures range { result < 2 ^ 32 }
    {
        self.0 as usize
    }
}

/// The number of a link, counted from 0 in the order of the links table.
#[derive(Clone, Copy, Debug, PartialEq, Eq)]
pub struct LinkNo(pub u32);

impl Model for LinkNo {
    ghost Value = { ℕ };

    ghost view = { λ a. a.0 };

    ghost inverse = { λ n. record { 0 = n } };
}

impl LinkNo {
    /// The number as a place in a list.
    pub fn place(self) -> usize
        ensures number { result ≡ self }
        ensures range { result < 2 ^ 32 }
    {
        self.0 as usize
    }
}

/// The number of a train unit, counted from 0 by stock row and then within the row.
#[derive(Clone, Copy, Debug, Default, PartialEq, Eq, PartialOrd, Ord)]
pub struct UnitNo(pub u32);

impl Model for UnitNo {
    ghost Value = { ℕ };

    ghost view = { λ a. a.0 };

    ghost inverse = { λ n. record { 0 = n } };
}

impl UnitNo {
    /// The number as a place in a list.
    pub fn place(self) -> usize
        ensures number { result ≡ self }
        ensures range { result < 2 ^ 32 }
    {
        self.0 as usize
    }
}

/// The number of a composition in the catalogue, counted from 0.
#[derive(Clone, Copy, Debug, PartialEq, Eq, PartialOrd, Ord)]
pub struct CompNo(pub u32);

impl Model for CompNo {
    ghost Value = { ℕ };

    ghost view = { λ a. a.0 };

    ghost inverse = { λ n. record { 0 = n } };
}

impl CompNo {
    /// The number as a place in a list.
    pub fn place(self) -> usize
        ensures number { result ≡ self }
        ensures range { result < 2 ^ 32 }
    {
        self.0 as usize
    }
}

/// The number of a node of a search tree, counted from 0 in preorder.
#[derive(Clone, Copy, PartialEq, Eq)]
pub struct NodeNo(pub u32);

impl Model for NodeNo {
    ghost Value = { ℕ };

    ghost view = { λ a. a.0 };

    ghost inverse = { λ n. record { 0 = n } };
}

impl NodeNo {
    /// The number as a place in a list.
    pub fn place(self) -> usize
        ensures number { result ≡ self }
        ensures range { result < 2 ^ 32 }
    {
        self.0 as usize
    }
}

/// A minute, counted from 0 at the first midnight: a time of a timetable is below 2880, of the planned day or the day
/// after it, and the minute from which a unit may be taken again can be later.
#[derive(Clone, Copy, Debug, PartialEq, Eq, PartialOrd, Ord)]
pub struct Minute(pub u16);

impl Model for Minute {
    ghost Value = { ℕ };

    ghost view = { λ a. a.0 };

    ghost inverse = { λ n. record { 0 = n } };
}

impl Minute {
    /// The minutes since the first midnight.
    pub fn minutes(self) -> u32
        ensures number { result ≡ self }
        ensures range { result < 2 ^ 16 }
    {
        u32::from(self.0)
    }
}

/// An amount of cost, in the unit of the weights table: one carriage kilometre at weight 1. It may be negative, as a
/// bound may be.
#[derive(Clone, Copy, Debug, PartialEq, Eq, PartialOrd, Ord)]
pub struct Money(pub i128);
