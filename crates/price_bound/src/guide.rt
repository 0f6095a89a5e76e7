//! The prices of a day for whoever changes picks under them: of compositions, of edges, and of the best ways on.

ghost use Rattle.std.specs.Prelude.{◌≡◌, ◌<◌, Some, length, slice_get};
ghost use Rattle.timetable.specs.Indices.{lambdas_of, places_of};
ghost use Rattle.transitions.specs.Edges.{AreGraphs};
ghost use Rattle.branch_tree.specs.Entries.{DoFit};
ghost use Rattle.price_bound.specs.CellRows.{HaveRoomFor};
ghost use Rattle.price_bound.specs.ChangedDays.{AreChanges};
ghost use Rattle.price_bound.specs.Pricing.{ArePriced, priced_by};
ghost use Rattle.price_bound.specs.Rooms.{IsRoomFor};

use crate::chain_rows::ChainRows;
use crate::credits::fill_sums;
use crate::edge_prices::EdgePrices;
use crate::part_prices::PartPrices;
use crate::priced::{Asked, Pricing};
use crate::priced_costs::PricedCosts;
use crate::turn_prices::{TurnPrices, TurnTrips};
use crate::workspaces::Workspace;
use price_guide::PriceGuide;
use rail_base::limits::{MAX_ENTRIES, MAX_LINKS, MAX_TRIPS};
use rail_base::{CompNo, LinkNo, TripNo};
use transitions::Edge;

/// Puts the prices of a region into a guide. It takes no memory.
pub(crate) fn put_prices(room: &mut Workspace, asked: &Asked<'_>, guide: &mut PriceGuide)
    requires graphs { AreGraphs asked.now.instance.now asked.now.graphs.now }
    requires room { IsRoomFor asked.now.instance.now asked.now.changes.now room.old }
    requires changes { AreChanges asked.now.instance.now asked.now.changes.now }
    requires region { length asked.now.region.now ≡ length asked.now.instance.now.trips }
    requires fit { DoFit (length (places_of asked.now.instance.now)) (length (lambdas_of asked.now.instance.now))
        asked.now.multipliers.now }
    ensures room { IsRoomFor asked.now.instance.now asked.now.changes.now room.new }
{
    prove!(asked.multipliers.entries().len() <= MAX_ENTRIES);
    prove!(asked.instance.links() as usize <= MAX_LINKS);
    room.tables.fill(asked.instance, asked.multipliers);
    fill_sums(
        asked.instance,
        &room.trains,
        &room.tables,
        asked.region,
        &mut room.sums,
    );
    let pricing = Pricing {
        instance: asked.instance,
        graphs: asked.graphs,
        changes: asked.changes,
        multipliers: asked.multipliers,
        weight: asked.weight,
        region: asked.region,
        costs: &room.costs,
        tables: &room.tables,
        sums: &room.sums,
        trains: &room.trains,
    };
    put_all(&pricing, &mut room.rows, guide);
}

/// Puts all prices.
fn put_all(pricing: &Pricing<'_>, rows: &mut ChainRows, guide: &mut PriceGuide)
    requires priced { ArePriced pricing.now }
    requires room { HaveRoomFor (priced_by pricing.now) rows.old }
    ensures room { HaveRoomFor (priced_by pricing.now) rows.new }
{
    prove!(pricing.instance.links() as usize <= MAX_LINKS);
    put_cells(pricing, rows, guide);
    put_trips(pricing, guide);
    put_links(pricing, guide);
    guide.find_least();
}

/// Puts the least price from each composition of each trip on to the end of its chain.
fn put_cells(pricing: &Pricing<'_>, rows: &mut ChainRows, guide: &mut PriceGuide)
    requires priced { ArePriced pricing.now }
    requires room { HaveRoomFor (priced_by pricing.now) rows.old }
    ensures room { HaveRoomFor (priced_by pricing.now) rows.new }
{
    prove!(pricing.instance.trips() as usize <= MAX_TRIPS);
    for chain in 0..pricing.instance.chains() {
        let trips = pricing.instance.chain(chain);
        rows.fill(pricing, trips);
        for place in 0..trips.len() {
            put_row(
                rows,
                place,
                trips[place],
                pricing.instance.catalogue().len(),
                guide,
            );
        }
    }
}

/// Puts the cells of one trip, which stand in a row of its chain.
fn put_row(rows: &ChainRows, place: usize, trip: TripNo, comps: u32, guide: &mut PriceGuide) {
    for comp in 0..comps {
        guide.put_cell(trip, CompNo(comp), rows.value(place, CompNo(comp)));
    }
}

/// Puts the price of each composition of each trip.
fn put_trips(pricing: &Pricing<'_>, guide: &mut PriceGuide)
    requires priced { ArePriced pricing.now }
{
    for trip in 0..pricing.instance.trips() {
        put_trip(pricing, TripNo(trip), guide);
    }
}

/// Puts the price of each composition of a trip.
fn put_trip(pricing: &Pricing<'_>, trip: TripNo, guide: &mut PriceGuide)
    requires priced { ArePriced pricing.now }
    requires trip { trip < length pricing.now.instance.now.trips }
{
    let priced_costs = PricedCosts::new(&*pricing, trip);
    for comp in 0..pricing.instance.catalogue().len() {
        let price = match priced_costs.priced_cost(CompNo(comp)) {
            Some(priced_cost) => Some(priced_cost.0),
            None => None,
        };
        guide.put_own(trip, CompNo(comp), price);
    }
}

/// Puts the price of each edge, link by link.
fn put_links(pricing: &Pricing<'_>, guide: &mut PriceGuide)
    requires priced { ArePriced pricing.now }
{
    let mut begin = 0;
    for link in 0..pricing.instance.links() {
        begin = put_link(pricing, LinkNo(link), begin, guide);
    }
}

/// Puts the prices of the edges of a link, from a place on, and tells the place after the last.
fn put_link(pricing: &Pricing<'_>, link: LinkNo, begin: usize, guide: &mut PriceGuide) -> usize
    requires priced { ArePriced pricing.now }
    requires link { link < length pricing.now.instance.now.links }
{
    let edges = pricing.graphs.edges(link);
    let kind = &pricing.instance.link(link).kind;
    match kind.second() {
        None => {
            let turn = TurnTrips {
                arriving: kind.leads_from(),
                departing: kind.leads_to(),
                couple: kind.coupling_end(),
            };
            put_edges(&TurnPrices::new(pricing, link, turn), edges, begin, guide);
        }
        Some(second) => {
            put_edges(&PartPrices::new(pricing, link, second), edges, begin, guide);
        }
    }
    begin.saturating_add(edges.len())
}

/// Puts the prices of edges of a link, from a place on.
fn put_edges<P: EdgePrices>(prices: &P, edges: &[Edge], begin: usize, guide: &mut PriceGuide)
    requires prices { P.are_of_link prices.now }
    requires graphs { AreGraphs (P.priced prices.now).day (P.priced prices.now).graphs }
    requires edges { slice_get (P.priced prices.now).graphs (P.link prices.now) ≡ Some edges.now }
{
    for place in 0..edges.len() {
        let price = match prices.price(&edges[place]) {
            Some(price) => Some(price.0),
            None => None,
        };
        guide.put_edge(begin.saturating_add(place), price);
    }
}
