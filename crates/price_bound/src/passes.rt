//! The values of a turn's edges by the compositions that they lead from, without going through the edges.
//!
//! A turn without exchange keeps the units, or uncouples some, or couples some. What may be uncoupled from a
//! composition is the compositions that it is made of, by one unit less at the turn's end at a time; what may be
//! coupled is those that are made of it. So one pass from the last composition to the first finds for each the least
//! value over the longer ones, and one from the first to the last that over the shorter ones.

ghost use Rattle.std.specs.Prelude.{ℕ, ◌≡◌, ◌<◌, ◌≤◌, ◌+ℤ◌, ◌-ℤ◌, length, set, suc, ℤ, IfSome, Some, ◌+◌, is_none};
ghost use Rattle.std.specs.Prelude.{false, true};
ghost use Rattle.timetable.specs.Links.{outgoing};
ghost use Rattle.price_bound.specs.CellRows.{MayRunOn, all_bare, cell_in, comps_of, row_on};
ghost use Rattle.price_bound.specs.CellSizes.{AreSmallCells, IsSmall, IsSmallStep, most_ahead, most_offered};
ghost use Rattle.price_bound.specs.CellSizes.{most_edge_price, most_step, most_units_price};
ghost use Rattle.price_bound.specs.ChainStages.{priced_cost_of};
ghost use Rattle.price_bound.specs.CompositionTrees.{place_at};
ghost use Rattle.price_bound.specs.Credits.{is_whole};
ghost use Rattle.price_bound.specs.LeastOverTrees.{lower};
ghost use Rattle.price_bound.specs.PassRooms.{IsPassRoom};
ghost use Rattle.price_bound.specs.PassValues.{AreAhead, AreLonger, ArePassValues, AreShorter, IsEndAhead, IsForPasses};
ghost use Rattle.price_bound.specs.PassValues.{IsPassedSmall, IsPlainTurn, comps_for, most_summed, no_sum, priced_for};
ghost use Rattle.price_bound.specs.PassValues.{value_at};
ghost use Rattle.price_bound.specs.Paths.{with_priced_cost};
ghost use Rattle.price_bound.specs.Pricing.{ArePriced, priced_by};
ghost use Rattle.price_bound.specs.RowValues.{IsForPassed, IsStepOn, is_had, passed_cell, priced_on};
ghost use Rattle.price_bound.specs.TripAndLinkPrices.{IsForTrip};

use crate::cells::{Cell, CellRow, cell_in, value_of, with_priced_cost};
use crate::pass_room::PassRoom;
use crate::priced::Pricing;
use crate::priced_costs::{Amount, PricedCosts, weighted};
use crate::row_values::RowValues;
use crate::turn_prices::shunting_cost;
use rail_base::limits::MAX_COMPOSITIONS;
use rail_base::{CompNo, LinkNo, TripNo};
use rail_csv::End;

/// What stands for no sum of a value ahead and the price of a composition's units. Where there is a cell, the sum is
/// below it; where there is none, no sum is.
const NO_SUM: i64 = 9_094_000_000_000_000_000;

/// A turn without exchange.
#[derive(Clone, Copy)]
pub(crate) struct PlainTurn {
    /// The trip whose train arrives.
    pub arriving: TripNo,
    /// The trip whose train departs.
    pub departing: TripNo,
    /// Whether the arriving train turns round.
    pub reverse: bool,
    /// The end at which units are uncoupled.
    pub uncouple: End,
    /// The end at which units are coupled.
    pub couple: End,
}

/// What the edges of a turn without exchange are priced by.
#[derive(Drop)]
pub(crate) struct Passes<'a> {
    /// What is priced.
    pub pricing: &'a Pricing<'a>,
    /// The link, which is a turn without exchange.
    pub link: LinkNo,
    /// The turn.
    pub turn: PlainTurn,
    /// The place of each composition without the unit that is uncoupled first.
    pub shorter: &'a [u32],
    /// The place of each composition without the unit that is coupled last.
    pub longer: &'a [u32],
    /// The place of each composition as it was before the train turned round.
    pub turned: &'a [u32],
    /// What shunting costs, under the weight.
    pub shunting: Amount,
    /// The price of each composition's units, where the arriving trip gives them.
    pub credits: &'a [i64],
    /// The price of each composition's units, where the departing trip takes them.
    pub debits: &'a [i64],
}

/// What stands in the row of a trip, by the values that the passes found.
#[derive(Drop)]
pub(crate) struct PassedValues<'a> {
    /// What compositions cost on the trip.
    pub priced_costs: &'a PricedCosts<'a>,
    /// The values that the passes found.
    pub values: &'a [i64],
    /// The row of the next trip.
    pub ahead: &'a CellRow,
}

/// Makes the row of a trip from which a turn without exchange leads on.
pub(crate) fn fill_by_passes(
    passes: &Passes<'_>,
    priced_costs: &PricedCosts<'_>,
    row: &mut CellRow,
    ahead: &CellRow,
    room: &mut PassRoom,
)
    requires is { IsForPasses passes.now }
    requires priced_costs { IsForTrip priced_costs.now }
    requires priced { priced_by priced_costs.now.pricing.now ≡ priced_for passes.now }
    requires arriving { priced_costs.now.trip ≡ passes.now.turn.arriving }
    requires link { outgoing (priced_for passes.now).day priced_costs.now.trip ≡ Some passes.now.link }
    requires row { length row.old ≡ comps_for passes.now }
    requires ahead { length ahead.now ≡ comps_for passes.now }
    requires small { AreSmallCells most_ahead ahead.now }
    requires runs { MayRunOn (priced_for passes.now).day passes.now.turn.departing ahead.now }
    requires room { IsPassRoom (comps_for passes.now) room.old }
    ensures room { IsPassRoom (comps_for passes.now) room.new }
    ensures row { row.new ≡ all_bare (row_on (priced_for passes.now) priced_costs.now.trip ahead.now) }
    ensures small { IsSmallStep most_step ahead.now row.new }
{
    prove!(priced_costs.pricing.instance.catalogue().len() as usize <= MAX_COMPOSITIONS);
    passes.put_all(ahead.values(), ahead.end(), room);
    let values = PassedValues {
        priced_costs,
        values: &room.values,
        ahead,
    };
    row.fill(&values, priced_costs.set);
}

impl<'a> RowValues for PassedValues<'a> {
    ghost comps = { λ passed. comps_of (priced_on passed.priced_costs.now) };

    ghost member = { λ passed. is_had passed.priced_costs.now };

    ghost cell = { passed_cell };

    ghost IsFew = { λ passed. IsStepOn passed.ahead.now };

    ghost are_of_trip = { IsForPassed };

    fn value(&self, comp: CompNo) -> i64 {
        let cell = passed_with_priced_cost(self.priced_costs, comp, self.values);
        value_of(cell)
    }
}

/// The cell of a composition with its priced cost, by the values that the passes found.
fn passed_with_priced_cost(
    priced_costs: &PricedCosts<'_>,
    comp: CompNo,
    values: &[i64],
) -> Option<Cell>
    requires priced_costs { IsForTrip priced_costs.now }
    requires leads { is_none (outgoing priced_costs.now.pricing.now.instance.now priced_costs.now.trip) ≡ false }
    requires comp { comp < comps_of (priced_by priced_costs.now.pricing.now) }
    requires member { is_had priced_costs.now comp ≡ true }
    requires values { length values.now ≡ comps_of (priced_by priced_costs.now.pricing.now) }
    requires small { IsPassedSmall (priced_by priced_costs.now.pricing.now) priced_costs.now.trip comp most_offered
        (value_at values.now comp) }
    ensures cell { result ≡ with_priced_cost
        (priced_cost_of (priced_by priced_costs.now.pricing.now) priced_costs.now.trip comp)
        (cell_in (value_at values.now comp)) }
    ensures small { (bound : ℕ) → IsPassedSmall (priced_by priced_costs.now.pricing.now) priced_costs.now.trip comp
        (bound + most_edge_price) (value_at values.now comp)
        → IfSome result (λ cell. IsSmall (bound + most_step) cell.value) }
{
    let Some(priced_cost) = priced_costs.of_member(comp) else {
        return None;
    };
    let value = value_at(values, comp.place());
    with_priced_cost(Some(priced_cost), cell_in(value.0))
}

impl<'a> Passes<'a> {
    /// What the edges of a link are priced by, which is a turn without exchange.
    pub(crate) fn new(pricing: &'a Pricing<'a>, link: LinkNo, turn: PlainTurn) -> Passes<'a>
        requires priced { ArePriced pricing.now }
        requires turn { IsPlainTurn (priced_by pricing.now) link turn.reverse turn.arriving turn.departing
            turn.uncouple turn.couple }
        requires arriving { turn.arriving < length pricing.now.instance.now.trips }
        requires departing { turn.departing < length pricing.now.instance.now.trips }
        requires credits { is_whole pricing.now.sums.now.summed.items turn.arriving ≡ true }
        requires debits { is_whole pricing.now.sums.now.summed.items turn.departing ≡ true }
        ensures pricing { result.pricing.now ≡ pricing.now }
        ensures link { result.link ≡ link }
        ensures turn { result.turn ≡ turn }
        ensures is { IsForPasses result }
    {
        Passes {
            pricing,
            link,
            turn,
            shorter: pricing.trains.rests(turn.uncouple),
            longer: pricing.trains.rests(turn.couple),
            turned: pricing.trains.places(turn.reverse),
            shunting: weighted(pricing.weight, shunting_cost(pricing.instance)),
            credits: pricing.sums.credits.row(turn.arriving.place()).items(),
            debits: pricing.sums.debits.row(turn.departing.place()).items(),
        }
    }

    /// Puts the least values by the compositions that arrive, where these may run on the arriving trip. No composition
    /// from the end on has a value ahead.
    fn put_all(&self, ahead: &[i64], end: usize, room: &mut PassRoom)
        requires is { IsForPasses self.now }
        requires ahead { AreAhead self.now ahead.now }
        requires end { IsEndAhead self.now ahead.now end }
        requires room { IsPassRoom (comps_for self.now) room.old }
        ensures room { IsPassRoom (comps_for self.now) room.new }
        ensures values { ArePassValues self.now ahead.now room.new.values.items }
    {
        self.put(
            ahead,
            end,
            &mut room.shorter,
            &mut room.longer,
            &mut room.values,
        );
    }

    /// The same, into slices.
    fn put(
        &self,
        ahead: &[i64],
        end: usize,
        shorter: &mut [i64],
        longer: &mut [i64],
        values: &mut [i64],
    )
        requires is { IsForPasses self.now }
        requires ahead { AreAhead self.now ahead.now }
        requires end { IsEndAhead self.now ahead.now end }
        requires shorter { length shorter.old ≡ suc (comps_for self.now) }
        requires longer { length longer.old ≡ suc (comps_for self.now) }
        requires values { length values.old ≡ comps_for self.now }
        ensures shorter { length shorter.new ≡ suc (comps_for self.now) }
        ensures longer { length longer.new ≡ suc (comps_for self.now) }
        ensures values { ArePassValues self.now ahead.now values.new }
    {
        clear(longer);
        self.put_longer(ahead, end, longer);
        put_value(shorter, self.turned.len(), Amount(NO_SUM));
        self.put_values(ahead, longer, shorter, values);
    }

    /// Puts for each composition the least value, with a debit, over those that are made of it. No composition from the
    /// end on has a value ahead.
    fn put_longer(&self, ahead: &[i64], end: usize, longer: &mut [i64])
        requires is { IsForPasses self.now }
        requires ahead { AreAhead self.now ahead.now }
        requires end { end ≤ comps_for self.now }
        requires longer { AreLonger self.now ahead.now end longer.old }
        ensures { AreLonger self.now ahead.now 0 longer.new }
    {
        let mut comp = end;
        while comp > 0 {
            comp -= 1;
            self.lower_rest(ahead, longer, comp);
        }
    }

    /// Offers a composition's values to the composition that is left without the unit that is coupled last.
    fn lower_rest(&self, ahead: &[i64], longer: &mut [i64], comp: usize)
        requires is { IsForPasses self.now }
        requires ahead { AreAhead self.now ahead.now }
        requires comp { comp < comps_for self.now }
        requires longer { AreLonger self.now ahead.now (suc comp) longer.old }
        ensures { AreLonger self.now ahead.now comp longer.new }
    {
        let value = raised(value_at(ahead, comp), value_at(self.debits, comp));
        let least = lower(value_at(longer, comp), value);
        let rest = place_at(self.longer, comp);
        let lowered = lower(value_at(longer, rest), least);
        put_value(longer, rest, lowered);
    }

    /// Puts the values by the compositions that arrive, and for each composition the least value, with a credit, over
    /// those that it is made of.
    fn put_values(&self, ahead: &[i64], longer: &[i64], shorter: &mut [i64], values: &mut [i64])
        requires is { IsForPasses self.now }
        requires ahead { AreAhead self.now ahead.now }
        requires longer { AreLonger self.now ahead.now 0 longer.now }
        requires shorter { AreShorter self.now ahead.now 0 shorter.old }
        requires values { length values.old ≡ comps_for self.now }
        ensures shorter { length shorter.new ≡ suc (comps_for self.now) }
        ensures values { ArePassValues self.now ahead.now values.new }
    {
        for comp in 0..self.turned.len() {
            let rest = place_at(self.shorter, comp);
            let fewer = value_at(shorter, rest);
            let value = self.turning(ahead, longer, fewer, comp);
            let place = place_at(self.turned, comp);
            put_value(values, place, value);
            let credited = raised(value_at(ahead, comp), value_at(self.credits, comp));
            let least = lower(fewer, credited);
            put_value(shorter, comp, least);
        }
    }

    /// The value of a composition that arrives: the least where the units stay, some go, or some come.
    fn turning(&self, ahead: &[i64], longer: &[i64], fewer: Amount, comp: usize) -> Amount
        requires is { IsForPasses self.now }
        requires ahead { AreAhead self.now ahead.now }
        requires longer { AreLonger self.now ahead.now 0 longer.now }
        requires comp { comp < comps_for self.now }
        requires fewer { IsSmall most_summed fewer.0 }
        ensures { result.0 ≡ lower (value_at ahead.now comp)
            (self.now.shunting.0 +ℤ lower (fewer.0 -ℤ value_at self.now.credits.now comp)
            (value_at longer.now comp -ℤ value_at self.now.debits.now comp)) }
    {
        let off = lessened(fewer, value_at(self.credits, comp));
        let on = lessened(value_at(longer, comp), value_at(self.debits, comp));
        let changed = raised(lower(off, on), self.shunting);
        lower(value_at(ahead, comp), changed)
    }
}

/// Puts no sum.
fn clear(sums: &mut [i64])
    ensures long { length sums.new ≡ length sums.old }
    ensures none { (place : ℕ) → place < length sums.old → value_at sums.new place ≡ no_sum }
{
    for place in 0..sums.len() {
        sums[place] = NO_SUM;
    }
}

/// The value at a place.
pub(crate) fn value_at(values: &[i64], place: usize) -> Amount
    requires { place < length values.now }
    ensures { result.0 ≡ value_at values.now place }
{
    Amount(values[place])
}

/// Changes the value at a place.
fn put_value(values: &mut [i64], place: usize, value: Amount)
    requires { place < length values.old }
    ensures { values.new ≡ set values.old place value.0 }
{
    values[place] = value.0;
}

/// The place that stands at a place.
pub(crate) fn place_at(places: &[u32], place: usize) -> usize
    requires { place < length places.now }
    ensures { result ≡ place_at places.now place }
{
    places[place] as usize
}

/// The first of two values, unless the other is lower.
fn lower(value: Amount, other: Amount) -> Amount
    ensures { result.0 ≡ lower value.0 other.0 }
{
    if other.0 < value.0 { other } else { value }
}

/// A value and a price together.
fn raised(value: Amount, by: Amount) -> Amount
    requires value { IsSmall 9112000000000000000 value.0 }
    requires by { IsSmall most_units_price by.0 }
    ensures { result.0 ≡ value.0 +ℤ by.0 }
{
    Amount(value.0 + by.0)
}

/// A value less a price.
fn lessened(value: Amount, by: Amount) -> Amount
    requires value { IsSmall most_summed value.0 }
    requires by { IsSmall most_units_price by.0 }
    ensures { result.0 ≡ value.0 -ℤ by.0 }
{
    Amount(value.0 - by.0)
}
