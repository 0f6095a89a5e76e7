//! What is to be priced, and the same with the tables of its costs and prices.

use crate::amounts::AmountTable;
use crate::changes::Change;
use crate::credits::UnitSums;
use crate::price_tables::PriceTables;
use crate::trains::Trains;
use branch_tree::{Multipliers, Region, Weight};
use timetable::Instance;
use transitions::Graphs;

/// What is to be priced: a region of a day under changes and multipliers.
#[derive(Drop)]
pub(crate) struct Asked<'a> {
    /// The day.
    pub instance: &'a Instance,
    /// Its edges.
    pub graphs: &'a Graphs,
    /// Its changes.
    pub changes: &'a [Change],
    /// The compositions that each trip may have.
    pub region: &'a Region,
    /// The multipliers.
    pub multipliers: &'a Multipliers,
    /// Whether costs count.
    pub weight: Weight,
}

/// What is priced: a day and its edges under changes, a region of it, multipliers and their weight; with the tables of
/// the day's costs and of the prices under the multipliers.
#[derive(Drop)]
pub(crate) struct Pricing<'a> {
    /// The day.
    pub instance: &'a Instance,
    /// The edges of each link of the day.
    pub graphs: &'a Graphs,
    /// What compositions of trips cost more than their bases.
    pub changes: &'a [Change],
    /// The multipliers under which prices are.
    pub multipliers: &'a Multipliers,
    /// Whether costs count.
    pub weight: Weight,
    /// The compositions that each trip may have.
    pub region: &'a Region,
    /// What each trip costs with each composition.
    pub costs: &'a AmountTable,
    /// The prices under the multipliers, by trip, link and yard.
    pub tables: &'a PriceTables,
    /// The prices of compositions' units, where trips give and take them.
    pub sums: &'a UnitSums,
    /// How the compositions are made of one another.
    pub trains: &'a Trains,
}
