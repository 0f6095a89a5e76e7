//! The six tables of a day, as their readers give them.

ghost use Rattle.std.specs.Prelude.{◌≡◌, List};

use rail_csv::{LinkRow, StationRow, StockRow, TripRow, TypeRow, WeightsRow};
use std::marker::Model;

/// The rows of a table, in order. A contract sees the list of them.
#[derive(Debug, Drop)]
pub struct Rows<T> {
    rows: Vec<T>,
}

impl<T> Model for Rows<T> {
    ghost use Rattle.std.specs.Prelude.{List};

    ghost Value = { List T };

    ghost view = { λ a. a.rows.items };
}

impl<T> Rows<T> {
    /// These rows. It takes no memory.
    pub fn of(items: Vec<T>) -> Rows<T>
        ensures { result ≡ items.items }
    {
        Rows { rows: items }
    }

    /// The rows in order. It takes no memory.
    pub fn items(&self) -> &[T]
        ensures { result.now ≡ self.now }
    {
        self.rows.as_slice()
    }

    /// The rows in order, to keep. It takes no memory.
    pub fn into_items(self) -> Vec<T>
        ensures { result.items ≡ self }
    {
        self.rows
    }
}

/// The rows of the six tables of a day.
#[derive(Debug, Drop)]
pub struct Tables {
    /// The types of train units.
    pub types: Rows<TypeRow>,
    /// The stations.
    pub stations: Rows<StationRow>,
    /// The units at the stations.
    pub stock: Rows<StockRow>,
    /// The trips.
    pub trips: Rows<TripRow>,
    /// The links between trips.
    pub links: Rows<LinkRow>,
    /// The weights of the cost.
    pub weights: WeightsRow,
}
