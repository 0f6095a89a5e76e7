//! The rows of cells of a chain, made from its last trip to its first; and the first path of least value, read off from
//! the first trip on.

ghost use Rattle.std.specs.Prelude.{◌≡◌, ◌<◌, ◌≤◌, ◌+◌, ◌*◌, [], length, get_or, map, set, take, All, IfOk, Some, None};
ghost use Rattle.std.specs.Prelude.{IfSome, false, is_none, true};
ghost use Rattle.timetable.specs.Compositions.{compositions_of};
ghost use Rattle.timetable.specs.Chains.{Leads};
ghost use Rattle.timetable.specs.Links.{outgoing};
ghost use Rattle.timetable.specs.Running.{EachFollows};
ghost use Rattle.timetable.specs.Within.{IsLinkAt};
ghost use Rattle.price_bound.specs.CellRows.{AreSmallBelow, HaveRoom, HaveRoomFor, LeadsTo, MayRunOn, offered_from};
ghost use Rattle.price_bound.specs.CellRows.{all_bare, chain_rows};
ghost use Rattle.price_bound.specs.PassRooms.{IsPassRoom, IsPlain};
ghost use Rattle.price_bound.specs.CellRows.{comps_of, last_row_on, put_along, row_on};
ghost use Rattle.price_bound.specs.CellSizes.{AreSmallCells, IsSmallStep, most_ahead};
ghost use Rattle.price_bound.specs.CellSizes.{most_step};
ghost use Rattle.price_bound.specs.Credits.{is_whole};
ghost use Rattle.price_bound.specs.Paths.{begin_of, next_of, path_from};
ghost use Rattle.price_bound.specs.Pricing.{ArePriced, priced_by};

use crate::cells::{Cell, CellRow};
use crate::least_edges::{fill_by_edges, offered};
use crate::part_prices::PartPrices;
use crate::pass_room::PassRoom;
use crate::passes::{Passes, PlainTurn, fill_by_passes};
use crate::priced::Pricing;
use crate::priced_costs::PricedCosts;
use crate::row_values::EndValues;
use crate::turn_prices::{TurnPrices, TurnTrips};
use rail_base::limits::{MAX_COMPOSITIONS, MAX_LINKS, MAX_TRIPS};
use rail_base::{CompNo, LinkNo, NoMemory, TripNo};
use std::alloc::Global;
use std::marker::Model;
use timetable::{Instance, Link, Picks};
use transitions::{Edge, may_exchange};

/// Room for the rows of any chain of a day. A contract sees a list of cells for each row.
#[derive(Drop)]
pub(crate) struct ChainRows {
    rows: Vec<CellRow>,
    pass_room: PassRoom,
}

impl Model for ChainRows {
    ghost use Rattle.std.specs.Prelude.{List, Option};
    ghost use Rattle.price_bound.specs.declared.cells.Cell.{Cell};
    ghost use Rattle.price_bound.specs.PassRooms.{FitsRows};

    ghost Value = { List (List (Option Cell)) };

    ghost view = { λ a. a.rows.items };

    ghost invariant = { λ a. FitsRows a.rows.items a.pass_room };
}

impl ChainRows {
    /// A row for each trip of a day, since no chain has more. The error is want of memory.
    pub(crate) fn new(alloc: Global, instance: &Instance) -> Result<ChainRows, NoMemory>
        ensures { IfOk result (HaveRoom (length instance.now.trips) (length (compositions_of instance.now))) }
    {
        let comps = instance.catalogue().len() as usize;
        let mut rows = Vec::new(alloc);
        for trip in 0..instance.trips() {
            rows.push(CellRow::new(alloc, comps)?)?;
        }
        let pass_room = PassRoom::new(alloc, instance)?;
        Ok(ChainRows { rows, pass_room })
    }

    /// Makes the rows of a chain, which has one trip or more, all of the day.
    pub(crate) fn fill(&mut self, pricing: &Pricing<'_>, chain: &[TripNo])
        requires priced { ArePriced pricing.now }
        requires some { 1 ≤ length chain.now }
        requires follows { EachFollows (Leads pricing.now.instance.now) chain.now }
        requires few { length chain.now ≤ length pricing.now.instance.now.trips }
        requires known { All (λ trip. trip < length pricing.now.instance.now.trips) chain.now }
        requires room { HaveRoomFor (priced_by pricing.now) self.old }
        ensures room { HaveRoomFor (priced_by pricing.now) self.new }
        ensures rows { take (length chain.now) self.new ≡ map all_bare (chain_rows (priced_by pricing.now) chain.now) }
        ensures first { AreSmallCells (length chain.now * most_step) (get_or self.new 0 []) }
        ensures small { AreSmallBelow (length chain.now) self.new }
    {
        fill_rows(pricing, chain, &mut self.rows, &mut self.pass_room);
    }

    /// The value of the first path of least value, with its first composition; nothing where the chain has no path.
    pub(crate) fn begin(&self, comps: u32) -> Option<Cell>
        requires some { 1 ≤ length self.now }
        requires comps { comps ≡ length (get_or self.now 0 []) }
        ensures { result ≡ begin_of self.now }
    {
        self.rows[0].least(comps)
    }

    /// Gives the trips of a chain, whose rows are made, the compositions of the path that begins with one.
    pub(crate) fn put_path(
        &self,
        pricing: &Pricing<'_>,
        chain: &[TripNo],
        begin: CompNo,
        choice: &mut Picks,
    )
        requires priced { ArePriced pricing.now }
        requires few { length chain.now ≤ length pricing.now.instance.now.trips }
        requires known { All (λ trip. trip < length pricing.now.instance.now.trips) chain.now }
        requires room { HaveRoomFor (priced_by pricing.now) self.now }
        requires choice { length choice.old ≡ length pricing.now.instance.now.trips }
        requires rows { take (length chain.now) self.now ≡ map all_bare (chain_rows (priced_by pricing.now) chain.now) }
        requires small { AreSmallBelow (length chain.now) self.now }
        ensures { choice.new
            ≡ put_along chain.now (path_from (chain_rows (priced_by pricing.now) chain.now) begin) choice.old }
    {
        let mut comp = begin;
        for place in 0..chain.len() {
            choice.set(chain[place], comp);
            comp = self.next(pricing, chain, place, comp);
        }
    }

    /// The composition that follows one at a place of a chain, whose rows are made. At the last place none does, and
    /// any is told.
    fn next(&self, pricing: &Pricing<'_>, chain: &[TripNo], place: usize, comp: CompNo) -> CompNo
        requires priced { ArePriced pricing.now }
        requires few { length chain.now ≤ length pricing.now.instance.now.trips }
        requires known { All (λ trip. trip < length pricing.now.instance.now.trips) chain.now }
        requires room { HaveRoomFor (priced_by pricing.now) self.now }
        requires small { AreSmallBelow (length chain.now) self.now }
        requires place { place < length chain.now }
        requires rows { take (length chain.now) self.now ≡ map all_bare (chain_rows (priced_by pricing.now) chain.now) }
        ensures { place + 1 < length chain.now → result ≡ next_of (get_or
            (row_on (priced_by pricing.now) (get_or chain.now place 0) (get_or self.now (place + 1) [])) comp None) }
    {
        if place + 1 >= chain.len() {
            return comp;
        }
        let Some(_) = cell_of(&self.rows[place], comp) else {
            return CompNo(0);
        };
        next_at(pricing, chain[place], comp, &self.rows[place + 1])
    }

    /// The value of the cell of a row and a composition, if there is one.
    pub(crate) fn value(&self, place: usize, comp: CompNo) -> Option<i64> {
        if place >= self.rows.len() || comp.place() >= self.rows[place].len() {
            return None;
        }
        match self.rows[place].get(comp) {
            Some(cell) => Some(cell.value),
            None => None,
        }
    }
}

/// The cell of a composition; none past the last composition.
fn cell_of(row: &CellRow, comp: CompNo) -> Option<Cell>
    ensures { result ≡ get_or row.now comp None }
{
    if comp.place() >= row.len() {
        return None;
    }
    row.get(comp)
}

/// The composition to which the cell of a composition leads, which is there, where the row of the next trip is ahead.
/// What the composition costs changes nothing of where it leads.
fn next_at(pricing: &Pricing<'_>, trip: TripNo, comp: CompNo, ahead: &CellRow) -> CompNo
    requires priced { ArePriced pricing.now }
    requires trip { trip < length pricing.now.instance.now.trips }
    requires ahead { length ahead.now ≡ comps_of (priced_by pricing.now) }
    requires small { AreSmallCells most_ahead ahead.now }
    requires there { is_none (get_or (row_on (priced_by pricing.now) trip ahead.now) comp None) ≡ false }
    ensures { result ≡ next_of (get_or (row_on (priced_by pricing.now) trip ahead.now) comp None) }
{
    if comp.0 >= pricing.instance.catalogue().len() {
        return CompNo(0);
    }
    let Some(link) = pricing.instance.outgoing(trip) else {
        return CompNo(0);
    };
    next_of(offered_by_link(pricing, link, comp, ahead))
}

/// The first cell of least value that the edges of a link offer to a composition.
fn offered_by_link(
    pricing: &Pricing<'_>,
    link: LinkNo,
    comp: CompNo,
    ahead: &CellRow,
) -> Option<Cell>
    requires priced { ArePriced pricing.now }
    requires known { link < length pricing.now.instance.now.links }
    requires comp { comp < comps_of (priced_by pricing.now) }
    requires ahead { length ahead.now ≡ comps_of (priced_by pricing.now) }
    requires small { AreSmallCells most_ahead ahead.now }
    ensures { result ≡ offered_from (priced_by pricing.now) (Some link) ahead.now comp }
{
    let edges = pricing.graphs.edges(link);
    let kind = &pricing.instance.link(link).kind;
    match kind.second() {
        None => {
            let turn = TurnTrips {
                arriving: kind.leads_from(),
                departing: kind.leads_to(),
                couple: kind.coupling_end(),
            };
            let prices = TurnPrices::new(pricing, link, turn);
            offered(&prices, edges, comp, ahead)
        }
        Some(second) => {
            let prices = PartPrices::new(pricing, link, second);
            offered(&prices, edges, comp, ahead)
        }
    }
}

/// The composition to which a cell leads; 0 where there is no cell.
fn next_of(cell: Option<Cell>) -> CompNo
    ensures { result ≡ next_of cell }
{
    match cell {
        Some(cell) => cell.next,
        None => CompNo(0),
    }
}

/// Makes the rows of a chain, of which there is one for each trip of the day.
fn fill_rows(
    pricing: &Pricing<'_>,
    chain: &[TripNo],
    rows: &mut [CellRow],
    pass_room: &mut PassRoom,
)
    requires priced { ArePriced pricing.now }
    requires some { 1 ≤ length chain.now }
    requires follows { EachFollows (Leads pricing.now.instance.now) chain.now }
    requires passes { IsPassRoom (comps_of (priced_by pricing.now)) pass_room.old }
    requires few { length chain.now ≤ length pricing.now.instance.now.trips }
    requires known { All (λ trip. trip < length pricing.now.instance.now.trips) chain.now }
    requires room { HaveRoomFor (priced_by pricing.now) rows.old }
    ensures passes { IsPassRoom (comps_of (priced_by pricing.now)) pass_room.new }
    ensures room { HaveRoomFor (priced_by pricing.now) rows.new }
    ensures rows { take (length chain.now) rows.new ≡ map all_bare (chain_rows (priced_by pricing.now) chain.now) }
    ensures first { AreSmallCells (length chain.now * most_step) (get_or rows.new 0 []) }
    ensures small { AreSmallBelow (length chain.now) rows.new }
{
    prove!(pricing.instance.trips() as usize <= MAX_TRIPS);
    prove!(pricing.instance.links() as usize <= MAX_LINKS);
    let mut place = chain.len() - 1;
    fill_last(pricing, chain[place], &mut rows[place]);
    while place > 0 {
        place -= 1;
        fill_place(pricing, chain[place], rows, place, pass_room);
    }
}

/// Makes the row of a trip at a place of its chain, before the row of the next place.
fn fill_place(
    pricing: &Pricing<'_>,
    trip: TripNo,
    rows: &mut [CellRow],
    place: usize,
    pass_room: &mut PassRoom,
)
    requires priced { ArePriced pricing.now }
    requires passes { IsPassRoom (comps_of (priced_by pricing.now)) pass_room.old }
    requires leads { LeadsTo pricing.now.instance.now trip (get_or rows.old (place + 1) []) }
    requires trip { trip < length pricing.now.instance.now.trips }
    requires place { place + 1 < length pricing.now.instance.now.trips }
    requires room { HaveRoomFor (priced_by pricing.now) rows.old }
    requires ahead { AreSmallCells most_ahead (get_or rows.old (place + 1) []) }
    ensures passes { IsPassRoom (comps_of (priced_by pricing.now)) pass_room.new }
    ensures runs { MayRunOn pricing.now.instance.now trip (get_or rows.new place []) }
    ensures room { HaveRoomFor (priced_by pricing.now) rows.new }
    ensures row { rows.new ≡ set rows.old place
        (all_bare (row_on (priced_by pricing.now) trip (get_or rows.old (place + 1) []))) }
    ensures small { IsSmallStep most_step (get_or rows.old (place + 1) []) (get_or rows.new place []) }
{
    let (front, back) = rows.split_at_mut(place + 1);
    fill_before(pricing, trip, &mut front[place], &back[0], pass_room);
}

/// Makes the row of the last trip of a chain.
fn fill_last(pricing: &Pricing<'_>, trip: TripNo, row: &mut CellRow)
    requires priced { ArePriced pricing.now }
    requires trip { trip < length pricing.now.instance.now.trips }
    requires row { length row.old ≡ comps_of (priced_by pricing.now) }
    ensures row { row.new ≡ all_bare (last_row_on (priced_by pricing.now) trip) }
    ensures runs { MayRunOn pricing.now.instance.now trip row.new }
    ensures small { AreSmallCells most_step row.new }
{
    prove!(pricing.instance.catalogue().len() as usize <= MAX_COMPOSITIONS);
    let priced_costs = PricedCosts::new(&*pricing, trip);
    let values = EndValues {
        priced_costs: &priced_costs,
    };
    row.fill(&values, priced_costs.set);
}

/// Makes the row of a trip before that of the next trip of its chain.
fn fill_before(
    pricing: &Pricing<'_>,
    trip: TripNo,
    row: &mut CellRow,
    ahead: &CellRow,
    pass_room: &mut PassRoom,
)
    requires priced { ArePriced pricing.now }
    requires passes { IsPassRoom (comps_of (priced_by pricing.now)) pass_room.old }
    requires leads { LeadsTo pricing.now.instance.now trip ahead.now }
    requires trip { trip < length pricing.now.instance.now.trips }
    requires row { length row.old ≡ comps_of (priced_by pricing.now) }
    requires ahead { length ahead.now ≡ comps_of (priced_by pricing.now) }
    requires small { AreSmallCells most_ahead ahead.now }
    ensures passes { IsPassRoom (comps_of (priced_by pricing.now)) pass_room.new }
    ensures runs { MayRunOn pricing.now.instance.now trip row.new }
    ensures row { row.new ≡ all_bare (row_on (priced_by pricing.now) trip ahead.now) }
    ensures small { IsSmallStep most_step ahead.now row.new }
{
    match pricing.instance.outgoing(trip) {
        Some(link) => fill_by_link(pricing, trip, link, row, ahead, pass_room),
        None => row.clear(),
    }
}

/// Makes the row of a trip from which this link leads on: by passes, where it is a turn without exchange and the region
/// has many compositions for the trip.
fn fill_by_link(
    pricing: &Pricing<'_>,
    trip: TripNo,
    link: LinkNo,
    row: &mut CellRow,
    ahead: &CellRow,
    pass_room: &mut PassRoom,
)
    requires priced { ArePriced pricing.now }
    requires trip { trip < length pricing.now.instance.now.trips }
    requires link { outgoing pricing.now.instance.now trip ≡ Some link }
    requires known { link < length pricing.now.instance.now.links }
    requires leads { LeadsTo pricing.now.instance.now trip ahead.now }
    requires passes { IsPassRoom (comps_of (priced_by pricing.now)) pass_room.old }
    requires row { length row.old ≡ comps_of (priced_by pricing.now) }
    requires ahead { length ahead.now ≡ comps_of (priced_by pricing.now) }
    requires small { AreSmallCells most_ahead ahead.now }
    ensures passes { IsPassRoom (comps_of (priced_by pricing.now)) pass_room.new }
    ensures row { row.new ≡ all_bare (row_on (priced_by pricing.now) trip ahead.now) }
    ensures small { IsSmallStep most_step ahead.now row.new }
{
    let has_many = pricing.sums.has_many(trip);
    if !has_many {
        fill_by_prices(pricing, trip, link, true, row, ahead);
        return;
    }
    let link_at = pricing.instance.link(link);
    let Some(turn) = passed_turn(pricing, link_at) else {
        fill_by_prices(pricing, trip, link, false, row, ahead);
        return;
    };
    let priced_costs = PricedCosts::new(&*pricing, trip);
    let passes = Passes::new(pricing, link, turn);
    fill_by_passes(&passes, &priced_costs, row, ahead, pass_room);
}

/// The turn of a link, if it is one without exchange, and the departing trip has the prices of all compositions.
fn passed_turn(pricing: &Pricing<'_>, link: &Link) -> Option<PlainTurn>
    requires priced { ArePriced pricing.now }
    requires link { IsLinkAt pricing.now.instance.now link.now }
    ensures plain { IfSome result (IsPlain link.now) }
    ensures whole { IfSome result (λ turn. is_whole pricing.now.sums.now.summed.items turn.departing ≡ true) }
{
    let turn = plain_turn(link)?;
    if pricing.sums.is_whole(turn.departing) {
        Some(turn)
    } else {
        None
    }
}

/// The turn of a link, if it is one without exchange.
#[tactic(auto, using(crate::proofs::PlainTurns::plain_turn))]
fn plain_turn(link: &Link) -> Option<PlainTurn>
    ensures { IfSome result (IsPlain link.now) }
{
    let kind = link.kind;
    if kind.second().is_some() || may_exchange(kind) {
        return None;
    }
    Some(PlainTurn {
        arriving: kind.leads_from(),
        departing: kind.leads_to(),
        reverse: link.reverse,
        uncouple: kind.uncoupling_end(),
        couple: kind.coupling_end(),
    })
}

/// Makes the row of a trip from which this link leads on, by the prices of its edges; of those from the members of the
/// trip's set alone, where the region has few compositions for the trip.
fn fill_by_prices(
    pricing: &Pricing<'_>,
    trip: TripNo,
    link: LinkNo,
    has_few: bool,
    row: &mut CellRow,
    ahead: &CellRow,
)
    requires priced { ArePriced pricing.now }
    requires trip { trip < length pricing.now.instance.now.trips }
    requires link { outgoing pricing.now.instance.now trip ≡ Some link }
    requires known { link < length pricing.now.instance.now.links }
    requires row { length row.old ≡ comps_of (priced_by pricing.now) }
    requires ahead { length ahead.now ≡ comps_of (priced_by pricing.now) }
    requires small { AreSmallCells most_ahead ahead.now }
    ensures row { row.new ≡ all_bare (row_on (priced_by pricing.now) trip ahead.now) }
    ensures small { IsSmallStep most_step ahead.now row.new }
{
    let edges = pricing.graphs.edges(link);
    let priced_costs = PricedCosts::new(&*pricing, trip);
    let kind = &pricing.instance.link(link).kind;
    match kind.second() {
        None => {
            let turn = TurnTrips {
                arriving: kind.leads_from(),
                departing: kind.leads_to(),
                couple: kind.coupling_end(),
            };
            let prices = TurnPrices::new(pricing, link, turn);
            fill_by_edges(&prices, edges, &priced_costs, has_few, row, ahead);
        }
        Some(second) => {
            let prices = PartPrices::new(pricing, link, second);
            fill_by_edges(&prices, edges, &priced_costs, has_few, row, ahead);
        }
    }
}
