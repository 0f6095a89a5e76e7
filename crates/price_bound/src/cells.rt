//! Cells: the least value from a composition of a trip to the end of the trip's chain, and the next step of the first
//! path that has it.

ghost use Rattle.std.specs.Prelude.{ℕ, ◌≡◌, ◌<◌, ◌≤◌, ◌+◌, map, length, get_or, set, replicate, IfOk, IfSome, Some};
ghost use Rattle.std.specs.Prelude.{None, if◌then◌else◌, option_map, ◌+ℤ◌};
ghost use Rattle.branch_tree.specs.Sets.{is_member};
ghost use Rattle.price_bound.specs.CellRows.{AreHeld, IsHeld, bare, cell_in, held_cell};
ghost use Rattle.price_bound.specs.RowValues.{HasCells, HaveNone};
ghost use Rattle.price_bound.specs.Paths.{entered, least_from, lower_cell, offer_by, with_priced_cost};
ghost use Rattle.price_bound.specs.CellSizes.{IsSmall, most_edge_price, most_offered, most_step};

use crate::priced_costs::Amount;
use crate::row_values::{CompRange, RowValues, clear_range, put_row};
use branch_tree::CompositionSet;
use rail_base::limits::MAX_COMPOSITIONS;
use rail_base::{CompNo, NoMemory};
use std::alloc::Global;
use std::marker::Model;

/// The first path of least value from a composition of a trip to the end of its chain.
#[derive(Clone, Copy)]
pub(crate) struct Cell {
    /// Its value. 64 bits hold that of a chain of as many trips as a day may have.
    pub value: i64,
    /// The composition of the next trip on it; 0 at the chain's last trip.
    pub next: CompNo,
}

/// What stands in a row for no cell.
pub(crate) const NO_VALUE: i64 = 9_100_000_000_000_000_000;
/// A cell that stands for none.
pub(crate) const NO_CELL: Cell = Cell {
    value: NO_VALUE,
    next: CompNo(0),
};
/// The least of what stands in a row for no cell: the value of a cell is below it.
const LEAST_NONE: i64 = 9_050_000_000_000_000_000;

/// The cells of one trip, by composition, of which the values alone are kept. A contract sees the list of them, each of
/// which leads nowhere.
#[derive(Drop)]
pub(crate) struct CellRow {
    values: Vec<i64>,
    /// No other composition has a cell.
    range: CompRange,
}

impl Model for CellRow {
    ghost use Rattle.std.specs.Prelude.{List, Option, map};
    ghost use Rattle.price_bound.specs.declared.cells.Cell.{Cell};
    ghost use Rattle.price_bound.specs.CellRows.{AreHeld, AreWithin, cell_in};

    ghost Value = { List (Option Cell) };

    ghost view = { λ a. map cell_in a.values.items };

    ghost invariant = { λ a. AreHeld a.values.items × AreWithin a.range a.values.items };
}

impl CellRow {
    /// No cell for each of so many compositions. The error is want of memory.
    pub(crate) fn new(alloc: Global, comps: usize) -> Result<CellRow, NoMemory>
        ensures { IfOk result (λ row. row ≡ replicate comps None) }
    {
        Ok(CellRow {
            values: vec![in alloc; NO_VALUE; comps]?,
            range: CompRange { begin: 0, end: 0 },
        })
    }

    /// How many compositions have a place.
    pub(crate) fn len(&self) -> usize
        ensures { result ≡ length self.now }
    {
        self.values.len()
    }

    /// The first composition that may have a cell.
    pub(crate) fn begin(&self) -> usize
        ensures { (comp : ℕ) → comp < result → get_or self.now comp None ≡ None }
    {
        self.range.begin
    }

    /// A composition from which on none has a cell.
    pub(crate) fn end(&self) -> usize
        ensures none { (comp : ℕ) → result ≤ comp → get_or self.now comp None ≡ None }
        ensures within { result ≤ length self.now }
    {
        self.range.end
    }

    /// The value that a composition, which is below `len`, has in the row; `NO_VALUE` where there is no cell.
    fn value(&self, comp: CompNo) -> i64
        requires { comp < length self.now }
        ensures cell { cell_in result ≡ get_or self.now comp None }
        ensures held { IsHeld result }
    {
        self.values[comp.place()]
    }

    /// The cell of a composition, which is below `len`.
    pub(crate) fn get(&self, comp: CompNo) -> Option<Cell>
        requires { comp < length self.now }
        ensures { result ≡ get_or self.now comp None }
    {
        cell_in(self.value(comp))
    }

    /// The values of the cells, and `NO_VALUE` where there is none.
    pub(crate) fn values(&self) -> &[i64]
        ensures cells { map cell_in result.now ≡ self.now }
        ensures held { AreHeld result.now }
    {
        &self.values
    }

    /// Takes all cells out.
    pub(crate) fn clear(&mut self)
        ensures { self.new ≡ map (λ _. None) self.old }
    {
        clear_range(&mut self.values, self.range);
        self.range = CompRange { begin: 0, end: 0 };
    }

    /// Makes the cells of the row those of the members of a set.
    pub(crate) fn fill<V: RowValues>(&mut self, values: &V, set: &CompositionSet)
        requires are { V.are_of_trip values.now }
        requires members { (comp : ℕ) → V.member values.now comp ≡ is_member set.now comp }
        requires none { HaveNone (V.member values.now) (V.cell values.now) }
        requires few { V.IsFew values.now None }
        requires most { V.comps values.now ≤ MAX_COMPOSITIONS }
        requires row { length self.old ≡ V.comps values.now }
        ensures { HasCells (V.comps values.now) (V.cell values.now) (V.IsFew values.now) self.new }
    {
        self.range = put_row(values, set.words(), self.range, &mut self.values);
    }

    /// Changes the cell of a composition, which is below `len`.
    pub(crate) fn put(&mut self, comp: CompNo, cell: Option<Cell>)
        requires comp { comp < length self.old }
        requires small { IfSome cell (λ it. IsSmall most_offered it.value) }
        ensures { self.new ≡ set self.old comp (bare cell) }
    {
        self.values[comp.place()] = value_of(cell);
        self.range = CompRange {
            begin: 0,
            end: self.values.len(),
        };
    }

    /// The least value of the cells, of which there are so many, with the first composition that has it in place of the
    /// next one; nothing where there is no cell.
    pub(crate) fn least(&self, comps: u32) -> Option<Cell>
        requires { comps ≡ length self.now }
        ensures { result ≡ least_from 0 None self.now }
    {
        let mut least = NO_CELL;
        for comp in self.range.begin as u32..self.range.end as u32 {
            least = lower_value(least, CompNo(comp), self.value(CompNo(comp)));
        }
        held_cell(least)
    }
}

/// The cell that stands in a row by this value.
pub(crate) fn cell_in(value: i64) -> Option<Cell>
    ensures { result ≡ cell_in value }
{
    if value < LEAST_NONE {
        Some(Cell {
            value,
            next: CompNo(0),
        })
    } else {
        None
    }
}

/// What stands in a row for a cell.
pub(crate) fn value_of(cell: Option<Cell>) -> i64
    requires { IfSome cell (λ it. IsSmall most_offered it.value) }
    ensures cell { cell_in result ≡ bare cell }
    ensures held { IsHeld result }
{
    match cell {
        Some(cell) => cell.value,
        None => NO_VALUE,
    }
}

/// A cell, unless the value that a composition has in a row is lower: then one of that value and of the composition.
/// Both may stand for no cell.
fn lower_value(cell: Cell, comp: CompNo, value: i64) -> Cell
    requires cell { IsHeld cell.value }
    requires value { IsHeld value }
    ensures lower { held_cell result ≡ lower_cell (held_cell cell) (entered comp (cell_in value)) }
    ensures held { IsHeld result.value }
{
    if value < cell.value {
        Cell { value, next: comp }
    } else {
        cell
    }
}

/// The cell, if its value is one.
pub(crate) fn held_cell(cell: Cell) -> Option<Cell>
    ensures { result ≡ held_cell cell }
{
    if cell.value < LEAST_NONE {
        Some(cell)
    } else {
        None
    }
}

/// A cell, which may stand for none, unless another is of lower value.
pub(crate) fn lower_held(cell: Cell, other: Option<Cell>) -> Cell
    requires cell { IsHeld cell.value }
    requires other { IfSome other (λ it. IsSmall most_offered it.value) }
    ensures lower { held_cell result ≡ lower_cell (held_cell cell) other }
    ensures held { IsHeld result.value }
{
    match other {
        None => cell,
        Some(other) => {
            if other.value < cell.value {
                other
            } else {
                cell
            }
        }
    }
}

/// The cell of an edge to a composition: what is ahead there, at the edge's price.
pub(crate) fn offer_by(to: CompNo, price: Option<Amount>, ahead: Cell) -> Option<Cell>
    requires price { IfSome price (λ price. IsSmall most_edge_price price.0) }
    requires ahead { IsSmall most_offered ahead.value }
    ensures value { result ≡ offer_by to (option_map (λ price. price.0) price) (Some ahead) }
    ensures small { (bound : ℕ) → IsSmall bound ahead.value
        → IfSome result (λ cell. IsSmall (bound + most_edge_price) cell.value) }
{
    let price = price?;
    Some(with_amount(ahead, price, to))
}

/// A cell with the priced cost of its composition.
pub(crate) fn with_priced_cost(priced_cost: Option<Amount>, cell: Option<Cell>) -> Option<Cell>
    requires priced_cost { IfSome priced_cost (λ priced_cost. IsSmall most_step priced_cost.0) }
    requires cell { IfSome cell (λ cell. IsSmall most_offered cell.value) }
    ensures { result ≡ with_priced_cost (option_map (λ priced_cost. priced_cost.0) priced_cost) cell }
{
    let priced_cost = priced_cost?;
    let cell = cell?;
    Some(with_amount(cell, priced_cost, cell.next))
}

/// A cell that leads to a composition, with the value of another cell and an amount together.
fn with_amount(cell: Cell, by: Amount, next: CompNo) -> Cell
    requires cell { IsSmall most_offered cell.value }
    requires by { IsSmall most_step by.0 }
    ensures { result ≡ record { value = by.0 +ℤ cell.value; next = next } }
{
    Cell {
        value: by.0 + cell.value,
        next,
    }
}
