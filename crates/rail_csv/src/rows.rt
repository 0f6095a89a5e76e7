//! The rows of the tables, as their readers give them.

ghost use Rattle.std.specs.Prelude.{◌≡◌, ◌≤◌, length, List, ℕ};

use rail_base::limits::MAX_COMPOSITION_UNITS;
use rail_base::{Minute, Name, UnitNo};
pub use rules::End;
use std::marker::Model;

/// A row of the types table: one type of train unit.
#[derive(Debug, Drop)]
pub struct TypeRow {
    /// The name of the type.
    pub name: Name,
    /// Carriages of one unit, 1 to 20.
    pub carriages: u32,
    /// Seats of second class of one unit, 1 to 2,000.
    pub seats: u32,
    /// Length of one unit in metres, 1 to 500.
    pub metres: u32,
    /// The family of the type: only units of one family run coupled.
    pub family: Name,
    /// Seats of first class of one unit, 0 to 2,000; 0 in a table of the first version.
    pub first: u32,
}

/// A row of the stations table.
#[derive(Debug, Drop)]
pub struct StationRow {
    /// The name of the station.
    pub name: Name,
    /// Length of the platform in metres, 1 to 1,000.
    pub platform: u32,
    /// Minutes from the arrival at which a unit is given to the yard until it may be taken from it, 0 to 600.
    pub reallocation: u32,
}

/// A row of the stock table: units of one type at one station.
#[derive(Debug, Drop)]
pub struct StockRow {
    /// The name of the station.
    pub station: Name,
    /// The name of the type.
    pub unit_type: Name,
    /// Units there as the day begins, 0 to 2,000.
    pub start: u32,
    /// Units wanted there as the day ends, 0 to 2,000.
    pub end: u32,
}

/// A row of the trips table.
#[derive(Debug, Drop)]
pub struct TripRow {
    /// The name of the trip.
    pub name: Name,
    /// The name of the station that it leaves from.
    pub from: Name,
    /// The minute of its departure, below 2,880.
    pub departure: Minute,
    /// The name of the station that it arrives at.
    pub to: Name,
    /// The minute of its arrival, below 2,880.
    pub arrival: Minute,
    /// Length in kilometres, 1 to 1,000.
    pub km: u32,
    /// Seats of second class that are wanted, 0 to 10,000.
    pub demand: u32,
    /// Seats of first class that are wanted, 0 to 10,000; 0 in a table of the first version.
    pub first: u32,
}

/// How a link leads from arriving to departing trips.
#[derive(Clone, Copy, Debug)]
pub enum KindWord {
    /// One arriving train becomes one departing train.
    Turn,
    /// Two arriving trains become one.
    Join,
    /// One arriving train becomes two.
    Split,
}

/// A row of the links table. Whether its fields fit its kind is not the table's matter.
#[derive(Debug, Drop)]
pub struct LinkRow {
    /// A turn, a join or a split.
    pub kind: KindWord,
    /// The name of the arriving trip.
    pub arriving: Name,
    /// The name of the second arriving trip, if the field is not empty.
    pub arriving2: Option<Name>,
    /// The name of the departing trip.
    pub departing: Name,
    /// The name of the second departing trip, if the field is not empty.
    pub departing2: Option<Name>,
    /// Whether each arriving train is reversed.
    pub reverse: bool,
    /// Where units may be uncoupled.
    pub uncouple: End,
    /// Where units may be coupled.
    pub couple: End,
    /// Whether a turn may both uncouple units and couple units; `false` in a table of the first version.
    pub exchange: bool,
}

/// The row of the weights table, each weight 0 to 10,000.
#[derive(Clone, Copy, Debug)]
pub struct WeightsRow {
    /// Cost of a carriage kilometre.
    pub carriage: u32,
    /// Cost of a kilometre of a seat that is wanted and missing.
    pub shortage: u32,
    /// Cost of a turn that couples or uncouples.
    pub shunting: u32,
}

/// At most six units by number, front to rear. A contract sees the list of the numbers.
#[derive(Drop)]
pub struct UnitList {
    units: Vec<UnitNo>,
}

impl Model for UnitList {
    ghost use Rattle.std.specs.Prelude.{List, ℕ, length, ◌≤◌};
    ghost use Rattle.rail_base.specs.declared.limits.TheConstants.{MAX_COMPOSITION_UNITS};

    ghost Value = { List ℕ };

    ghost view = { λ a. a.units.items };

    ghost invariant = { λ a. length a.units.items ≤ MAX_COMPOSITION_UNITS };
}

impl UnitList {
    /// The list of these units, at most six. It takes no memory.
    pub fn of(items: Vec<UnitNo>) -> UnitList
        requires { length items.items ≤ MAX_COMPOSITION_UNITS }
        ensures { result ≡ items.items }
    {
        UnitList { units: items }
    }

    /// The units, front to rear. It takes no memory.
    pub fn items(&self) -> &[UnitNo]
        ensures list { result.now ≡ self.now }
        ensures few { length self.now ≤ MAX_COMPOSITION_UNITS }
    {
        self.units.as_slice()
    }
}

/// A row of the plan table: which units run on a trip.
#[derive(Drop)]
pub struct PlanRow {
    /// The name of the trip.
    pub trip: Name,
    /// The units, front to rear, each number 0 to 1,999.
    pub units: UnitList,
}

/// A table, as a refusal names it.
#[derive(Clone, Copy, Debug)]
pub enum Table {
    /// The unit types.
    Types,
    /// The stations.
    Stations,
    /// The stock at the stations.
    Stock,
    /// The trips.
    Trips,
    /// The links between trips.
    Links,
    /// The weights of the cost.
    Weights,
    /// The plan.
    Plan,
}
