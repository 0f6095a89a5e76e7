//! The least priced value of the picks that are near a region, by one cheapest path for each chain.

ghost use Rattle.std.specs.Prelude.{◌≡◌, ◌+ℤ◌, length, IfOk, IfSome};
ghost use Rattle.timetable.specs.Indices.{lambdas_of, places_of};
ghost use Rattle.transitions.specs.Edges.{AreGraphs};
ghost use Rattle.branch_tree.specs.Bounds.{IsBound};
ghost use Rattle.branch_tree.specs.Entries.{DoFit};
ghost use Rattle.price_bound.specs.CellRows.{HaveRoomFor};
ghost use Rattle.price_bound.specs.CellSizes.{IsSmall, most_found, most_chain_value};
ghost use Rattle.price_bound.specs.ChangedDays.{AreChanges, changed_day, changed_meanings};
ghost use Rattle.price_bound.specs.FirstPaths.{AreFound};
ghost use Rattle.price_bound.specs.Pricing.{ArePriced, priced_by};
ghost use Rattle.price_bound.specs.Rooms.{IsRoomFor};

use crate::amounts::AmountTable;
use crate::cells::Cell;
use crate::chain_rows::ChainRows;
use crate::changes::Change;
use crate::costs::fill_costs;
use crate::credits::{UnitSums, fill_sums};
use crate::price_tables::PriceTables;
use crate::priced::{Asked, Pricing};
use crate::priced_costs::added;
use crate::trains::Trains;
use branch_tree::BoundAnswer;
use rail_base::limits::{MAX_ENTRIES, MAX_LINKS, MAX_TRIPS};
use rail_base::{Money, NoMemory};
use std::alloc::Global;
use timetable::{Instance, Picks};

/// The room in which the bounds of a day are found.
#[derive(Drop)]
pub(crate) struct Workspace {
    /// What each trip costs with each composition, under the changes of the day.
    pub costs: AmountTable,
    /// The prices under the multipliers of a bound.
    pub tables: PriceTables,
    /// The prices of compositions' units, where trips give and take them.
    pub sums: UnitSums,
    /// How the compositions are made of one another.
    pub trains: Trains,
    /// The cells of one chain.
    pub rows: ChainRows,
    /// The picks that are found.
    pub choice: Picks,
}

impl Workspace {
    /// The room for a day under changes, with its costs. The error is want of memory.
    pub(crate) fn new(
        alloc: Global,
        instance: &Instance,
        changes: &[Change],
    ) -> Result<Workspace, NoMemory>
        requires changes { AreChanges instance.now changes.now }
        ensures { IfOk result (λ room. IsRoomFor instance.now changes.now room) }
    {
        let choice = Picks::new(alloc, instance.trips())?;
        let trips = instance.trips() as usize;
        let comps = instance.catalogue().len() as usize;
        let mut costs = AmountTable::new(alloc, trips, comps)?;
        fill_costs(instance, changes, &mut costs);
        let sums = UnitSums::new(alloc, instance)?;
        let trains = Trains::of(alloc, instance)?;
        let rows = ChainRows::new(alloc, instance)?;
        let tables = PriceTables::new(alloc, instance)?;
        Ok(Workspace {
            costs,
            tables,
            sums,
            trains,
            rows,
            choice,
        })
    }

    /// The least priced value of the picks that are near a region of a day, under changes and under multipliers that
    /// fit. It is `Empty` exactly where no picks are near the region, and `best` is then as before. Else `best` is,
    /// among those of least value, the first by the list of compositions read chain by chain. It takes no memory. Its
    /// time, of which no clause speaks, grows with the trips and the links times the compositions, with the edges of
    /// joins, splits and turns that may uncouple and couple at once, with the departure minutes and the trips times the
    /// types, and, for each multiplier, with the stations and the stock rows.
    pub(crate) fn bound(&mut self, asked: &Asked<'_>, best: &mut Picks) -> BoundAnswer
        requires graphs { AreGraphs asked.now.instance.now asked.now.graphs.now }
        requires room { IsRoomFor asked.now.instance.now asked.now.changes.now self.old }
        requires changes { AreChanges asked.now.instance.now asked.now.changes.now }
        requires region { length asked.now.region.now ≡ length asked.now.instance.now.trips }
        requires fit { DoFit (length (places_of asked.now.instance.now)) (length (lambdas_of asked.now.instance.now))
            asked.now.multipliers.now }
        requires best { length best.old ≡ length asked.now.instance.now.trips }
        ensures room { IsRoomFor asked.now.instance.now asked.now.changes.now self.new }
        ensures bound { IsBound (changed_meanings (changed_day asked.now.instance.now asked.now.changes.now))
            asked.now.region.now asked.now.multipliers.now asked.now.weight result best.old best.new }
    {
        prove!(asked.multipliers.entries().len() <= MAX_ENTRIES);
        prove!(asked.instance.chains() as usize <= MAX_TRIPS);
        prove!(asked.instance.links() as usize <= MAX_LINKS);
        let constant = self.tables.fill(asked.instance, asked.multipliers);
        fill_sums(
            asked.instance,
            &self.trains,
            &self.tables,
            asked.region,
            &mut self.sums,
        );
        let pricing = Pricing {
            instance: asked.instance,
            graphs: asked.graphs,
            changes: asked.changes,
            multipliers: asked.multipliers,
            weight: asked.weight,
            region: asked.region,
            costs: &self.costs,
            tables: &self.tables,
            sums: &self.sums,
            trains: &self.trains,
        };
        match first_paths(&pricing, &mut self.rows, &mut self.choice) {
            Some(value) => {
                best.copy_from(&self.choice);
                BoundAnswer::Value(added(constant, value))
            }
            None => BoundAnswer::Empty,
        }
    }
}

/// Finds along each chain the first path of least value, puts it on the trips of `choice`, and answers the sum of the
/// values; or nothing, where a chain has no path.
fn first_paths(pricing: &Pricing<'_>, rows: &mut ChainRows, choice: &mut Picks) -> Option<Money>
    requires priced { ArePriced pricing.now }
    requires room { HaveRoomFor (priced_by pricing.now) rows.old }
    requires choice { length choice.old ≡ length pricing.now.instance.now.trips }
    ensures room { HaveRoomFor (priced_by pricing.now) rows.new }
    ensures choice { length choice.new ≡ length pricing.now.instance.now.trips }
    ensures found { AreFound (priced_by pricing.now) result choice.new }
    ensures small { IfSome result (λ value. IsSmall most_found value.0) }
{
    prove!(pricing.instance.trips() as usize <= MAX_TRIPS);
    let mut value = Money(0);
    for chain in 0..pricing.instance.chains() {
        let trips = pricing.instance.chain(chain);
        rows.fill(pricing, trips);
        let Some(begin) = rows.begin(pricing.instance.catalogue().len()) else {
            return None;
        };
        rows.put_path(pricing, trips, begin.next, choice);
        value = with_begin(value, begin);
    }
    Some(value)
}

/// A value and that of a path more, which begins with a cell.
fn with_begin(value: Money, begin: Cell) -> Money
    requires value { IsSmall most_chain_value value.0 }
    requires begin { IsSmall most_chain_value begin.value }
    ensures { result.0 ≡ value.0 +ℤ begin.value }
{
    Money(value.0 + i128::from(begin.value))
}
