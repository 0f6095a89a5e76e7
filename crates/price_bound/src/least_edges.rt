//! The cells of a trip, composition by composition, from the edges that lead on from each.
//!
//! The edges of a link stand in order of the composition that they lead from: those of one composition are found
//! together, and those of a composition that the trip may not have are passed over. Those of one composition stand in
//! order of the one that they lead to: those outside of the range that has cells ahead are not gone through.

ghost use Rattle.std.specs.Prelude.{ℕ, ◌≡◌, ◌<◌, ◌+◌, ◌↔◌, IfSome, IsTrue, None, Some, false, get_or};
ghost use Rattle.std.specs.Prelude.{length, slice_get};
ghost use Rattle.timetable.specs.Links.{outgoing};
ghost use Rattle.transitions.specs.Edges.{AreGraphs, AreInOrder, IsEdge};
ghost use Rattle.price_bound.specs.CellRows.{all_bare, comps_of, offered_from, row_on};
ghost use Rattle.price_bound.specs.CellSizes.{AreSmallCells, IsSmall, IsSmallStep, most_ahead, most_edge_price};
ghost use Rattle.price_bound.specs.CellSizes.{most_step};
ghost use Rattle.price_bound.specs.ChainStages.{price_of, priced_cost_of};
ghost use Rattle.price_bound.specs.EdgeGroups.{IsAtGroup, IsBelow, IsGroupPlace, IsInGroup, IsNotBelow};
ghost use Rattle.price_bound.specs.EdgeGroups.{IsOfferPlace};
ghost use Rattle.price_bound.specs.Paths.{offer_by, with_priced_cost};
ghost use Rattle.price_bound.specs.Pricing.{IsListed, priced_by};
ghost use Rattle.price_bound.specs.RowValues.{IsForEdges, IsStepOn, edge_cell, is_had, priced_on};
ghost use Rattle.price_bound.specs.TripAndLinkPrices.{IsForTrip};

use crate::cells::{
    Cell, CellRow, NO_CELL, held_cell, lower_held, offer_by, value_of, with_priced_cost,
};
use crate::edge_prices::EdgePrices;
use crate::priced_costs::PricedCosts;
use crate::row_values::RowValues;
use rail_base::CompNo;
use rail_base::limits::MAX_COMPOSITIONS;
use transitions::Edge;

/// What is found among the edges from one composition.
#[derive(Clone, Copy)]
pub(crate) struct Least {
    /// The first cell of least value, if there is one.
    pub cell: Option<Cell>,
    /// Where the edges from a later composition are looked for first.
    pub end: usize,
}

/// What stands in the row of a trip, by the edges that lead on from the compositions of its set.
#[derive(Drop)]
pub(crate) struct EdgeValues<'a, P> {
    /// What prices the edges.
    pub prices: &'a P,
    /// The edges.
    pub edges: &'a [Edge],
    /// What compositions cost on the trip.
    pub priced_costs: &'a PricedCosts<'a>,
    /// The row of the next trip.
    pub ahead: &'a CellRow,
}

impl<'a, P: EdgePrices> RowValues for EdgeValues<'a, P> {
    ghost comps = { λ values. comps_of (priced_on values.priced_costs.now) };

    ghost member = { λ values. is_had values.priced_costs.now };

    ghost cell = { λ values. edge_cell values.priced_costs.now (P.link values.prices.now) values.ahead.now };

    ghost IsFew = { λ values. IsStepOn values.ahead.now };

    ghost are_of_trip = { λ values. IsForEdges (P.are_of_link values.prices.now) (P.priced values.prices.now)
        (P.link values.prices.now) values.edges.now values.priced_costs.now values.ahead.now };

    fn value(&self, comp: CompNo) -> i64 {
        let least = least_with_priced_cost(
            self.prices,
            self.edges,
            self.priced_costs,
            comp,
            0,
            self.ahead,
        );
        value_of(least.cell)
    }
}

/// Makes the row of a trip from which a link leads on, by the edges of the link from the members of the trip's set.
fn fill_by_members<P: EdgePrices>(
    prices: &P,
    edges: &[Edge],
    priced_costs: &PricedCosts<'_>,
    row: &mut CellRow,
    ahead: &CellRow,
)
    requires prices { P.are_of_link prices.now }
    requires graphs { AreGraphs (P.priced prices.now).day (P.priced prices.now).graphs }
    requires edges { slice_get (P.priced prices.now).graphs (P.link prices.now) ≡ Some edges.now }
    requires priced_costs { IsForTrip priced_costs.now }
    requires priced { priced_by priced_costs.now.pricing.now ≡ P.priced prices.now }
    requires link { outgoing (P.priced prices.now).day priced_costs.now.trip ≡ Some (P.link prices.now) }
    requires row { length row.old ≡ comps_of (P.priced prices.now) }
    requires ahead { length ahead.now ≡ comps_of (P.priced prices.now) }
    requires small { AreSmallCells most_ahead ahead.now }
    ensures row { row.new ≡ all_bare (row_on (P.priced prices.now) priced_costs.now.trip ahead.now) }
    ensures small { IsSmallStep most_step ahead.now row.new }
{
    prove!(priced_costs.pricing.instance.catalogue().len() as usize <= MAX_COMPOSITIONS);
    let values = EdgeValues {
        prices,
        edges,
        priced_costs,
        ahead,
    };
    row.fill(&values, priced_costs.set);
}

/// Makes the row of a trip from which a link leads on, by the edges of the link. Where the region has few compositions
/// for the trip, those of its set are gone through alone.
pub(crate) fn fill_by_edges<P: EdgePrices>(
    prices: &P,
    edges: &[Edge],
    priced_costs: &PricedCosts<'_>,
    has_few: bool,
    row: &mut CellRow,
    ahead: &CellRow,
)
    requires prices { P.are_of_link prices.now }
    requires graphs { AreGraphs (P.priced prices.now).day (P.priced prices.now).graphs }
    requires edges { slice_get (P.priced prices.now).graphs (P.link prices.now) ≡ Some edges.now }
    requires priced_costs { IsForTrip priced_costs.now }
    requires priced { priced_by priced_costs.now.pricing.now ≡ P.priced prices.now }
    requires link { outgoing (P.priced prices.now).day priced_costs.now.trip ≡ Some (P.link prices.now) }
    requires row { length row.old ≡ comps_of (P.priced prices.now) }
    requires ahead { length ahead.now ≡ comps_of (P.priced prices.now) }
    requires small { AreSmallCells most_ahead ahead.now }
    ensures row { row.new ≡ all_bare (row_on (P.priced prices.now) priced_costs.now.trip ahead.now) }
    ensures small { IsSmallStep most_step ahead.now row.new }
{
    if has_few {
        fill_by_members(prices, edges, priced_costs, row, ahead);
        return;
    }
    let mut begin = 0;
    for comp in 0..priced_costs.pricing.instance.catalogue().len() {
        let least = least_with_priced_cost(prices, edges, priced_costs, CompNo(comp), begin, ahead);
        row.put(CompNo(comp), least.cell);
        begin = least.end;
    }
}

/// The cell of a composition: the first of least value among those of the edges from it, with its priced cost. The
/// edges are looked for at a place first.
fn least_with_priced_cost<P: EdgePrices>(
    prices: &P,
    edges: &[Edge],
    priced_costs: &PricedCosts<'_>,
    comp: CompNo,
    begin: usize,
    ahead: &CellRow,
) -> Least
    requires prices { P.are_of_link prices.now }
    requires graphs { AreGraphs (P.priced prices.now).day (P.priced prices.now).graphs }
    requires edges { slice_get (P.priced prices.now).graphs (P.link prices.now) ≡ Some edges.now }
    requires priced_costs { IsForTrip priced_costs.now }
    requires priced { priced_by priced_costs.now.pricing.now ≡ P.priced prices.now }
    requires link { outgoing (P.priced prices.now).day priced_costs.now.trip ≡ Some (P.link prices.now) }
    requires comp { comp < comps_of (P.priced prices.now) }
    requires ahead { length ahead.now ≡ comps_of (P.priced prices.now) }
    requires small { AreSmallCells most_ahead ahead.now }
    ensures cell { result.cell ≡ with_priced_cost (priced_cost_of (P.priced prices.now) priced_costs.now.trip comp)
        (offered_from (P.priced prices.now) (Some (P.link prices.now)) ahead.now comp) }
    ensures small { (bound : ℕ) → AreSmallCells bound ahead.now
        → IfSome result.cell (λ cell. IsSmall (bound + most_step) cell.value) }
{
    let Some(priced_cost) = priced_costs.priced_cost(comp) else {
        return Least {
            cell: None,
            end: begin,
        };
    };
    let first = first_from(edges, comp, ahead.begin(), begin);
    let least = least_from(prices, edges, comp, first, ahead);
    Least {
        cell: with_priced_cost(Some(priced_cost), least.cell),
        end: least.end,
    }
}

/// The first cell of least value among those of the edges from a composition.
pub(crate) fn offered<P: EdgePrices>(
    prices: &P,
    edges: &[Edge],
    comp: CompNo,
    ahead: &CellRow,
) -> Option<Cell>
    requires prices { P.are_of_link prices.now }
    requires graphs { AreGraphs (P.priced prices.now).day (P.priced prices.now).graphs }
    requires edges { slice_get (P.priced prices.now).graphs (P.link prices.now) ≡ Some edges.now }
    requires comp { comp < comps_of (P.priced prices.now) }
    requires ahead { length ahead.now ≡ comps_of (P.priced prices.now) }
    requires small { AreSmallCells most_ahead ahead.now }
    ensures { result ≡ offered_from (P.priced prices.now) (Some (P.link prices.now)) ahead.now comp }
{
    let begin = halved_from(edges, comp, ahead.begin());
    least_from(prices, edges, comp, begin, ahead).cell
}

/// The first cell of least value among those of the edges from a composition, which begin at a place.
fn least_from<P: EdgePrices>(
    prices: &P,
    edges: &[Edge],
    comp: CompNo,
    begin: usize,
    ahead: &CellRow,
) -> Least
    requires prices { P.are_of_link prices.now }
    requires graphs { AreGraphs (P.priced prices.now).day (P.priced prices.now).graphs }
    requires edges { slice_get (P.priced prices.now).graphs (P.link prices.now) ≡ Some edges.now }
    requires comp { comp < comps_of (P.priced prices.now) }
    requires begin { IsOfferPlace edges.now ahead.now comp begin }
    requires ahead { length ahead.now ≡ comps_of (P.priced prices.now) }
    requires small { AreSmallCells most_ahead ahead.now }
    ensures cell { result.cell ≡ offered_from (P.priced prices.now) (Some (P.link prices.now)) ahead.now comp }
    ensures small { (bound : ℕ) → AreSmallCells bound ahead.now
        → IfSome result.cell (λ cell. IsSmall (bound + most_edge_price) cell.value) }
{
    let mut least = NO_CELL;
    let mut place = begin;
    let end = ahead.end();
    while is_in_group(edges, comp, end, place) {
        let offer = offer_at(prices, &edges[place], ahead);
        least = lower_held(least, offer);
        place += 1;
    }
    Least {
        cell: held_cell(least),
        end: place,
    }
}

/// The cell that an edge of a link offers at its price, which is found only where there is a cell ahead of it.
fn offer_at<P: EdgePrices>(prices: &P, edge: &Edge, ahead: &CellRow) -> Option<Cell>
    requires prices { P.are_of_link prices.now }
    requires edge { IsListed (comps_of (P.priced prices.now)) edge.now }
    requires allowed { IsEdge (P.priced prices.now).day (P.link prices.now) edge.now }
    requires ahead { length ahead.now ≡ comps_of (P.priced prices.now) }
    requires small { AreSmallCells most_ahead ahead.now }
    ensures value { result ≡ offer_by edge.now.to
        (price_of (P.priced prices.now) (Some (P.link prices.now)) edge.now)
        (get_or ahead.now edge.now.to None) }
    ensures small { (bound : ℕ) → AreSmallCells bound ahead.now
        → IfSome result (λ cell. IsSmall (bound + most_edge_price) cell.value) }
{
    let Some(cell) = ahead.get(edge.to) else {
        return None;
    };
    let price = prices.price(edge);
    offer_by(edge.to, price, cell)
}

/// Whether the edge at a place is there and leads from this composition to one below an end.
fn is_in_group(edges: &[Edge], comp: CompNo, end: usize, place: usize) -> bool
    ensures { IsTrue result ↔ IsInGroup edges.now comp end place }
{
    if place >= edges.len() {
        return false;
    }
    let edge = &edges[place];
    edge.from.0 == comp.0 && edge.to.place() < end
}

/// The place of the first edge that is not below those from a composition to another and on. It is looked for at a
/// place first.
fn first_from(edges: &[Edge], comp: CompNo, to: usize, hint: usize) -> usize
    requires { AreInOrder edges.now }
    ensures { IsGroupPlace edges.now comp to result }
{
    if begins_at(edges, comp, to, hint) {
        return hint;
    }
    halved_from(edges, comp, to)
}

/// Whether the edge at a place is there and not below those from a composition to another and on, and the edge before
/// it, if there is one, is.
fn begins_at(edges: &[Edge], comp: CompNo, to: usize, place: usize) -> bool
    ensures { IsTrue result → IsAtGroup edges.now comp to place }
{
    if place >= edges.len() || is_below(&edges[place], comp, to) {
        return false;
    }
    place == 0 || is_below(&edges[place - 1], comp, to)
}

/// Whether an edge leads from a lower composition than this, or from this to a lower one than another.
fn is_below(edge: &Edge, comp: CompNo, to: usize) -> bool
    ensures below { IsTrue result → IsBelow edge.now comp to }
    ensures not_below { result ≡ false → IsNotBelow edge.now comp to }
{
    edge.from.0 < comp.0 || (edge.from.0 == comp.0 && edge.to.place() < to)
}

/// The place of the first edge that is not below those from a composition to another and on, by halving.
fn halved_from(edges: &[Edge], comp: CompNo, to: usize) -> usize
    requires { AreInOrder edges.now }
    ensures { IsGroupPlace edges.now comp to result }
{
    let mut low = 0;
    let mut high = edges.len();
    while low < high {
        let middle = (low + high) / 2;
        if is_below(&edges[middle], comp, to) {
            low = middle + 1;
        } else {
            high = middle;
        }
    }
    low
}
