//! What the edges of turns are priced: the cost of shunting, and the prices of the units that are taken and given.

ghost use Rattle.std.specs.Prelude.{ℕ, ◌≡◌, ◌<◌, ◌≤◌, ◌+◌, ◌*◌, ◌+ℤ◌, ◌-ℤ◌, [], length, take, drop, pos, All, Some};
ghost use Rattle.std.specs.Prelude.{slice_get};
ghost use Rattle.timetable.specs.Compositions.{compositions_of, composition_at};
ghost use Rattle.branch_tree.specs.Meanings.{weighted};
ghost use Rattle.price_bound.specs.TripAndLinkPrices.{IsForTurn, IsTurnOf, coupled_price_of};
ghost use Rattle.price_bound.specs.CellSizes.{IsSmall, most_cost, most_edge_price, most_units_price};
ghost use Rattle.price_bound.specs.EdgeValues.{came, coupled, coupling_value, shunt_cost, turn_value};
ghost use Rattle.price_bound.specs.EdgeValues.{uncoupling_value};
ghost use Rattle.price_bound.specs.Pricing.{ArePriced, IsListed, priced_by};
ghost use Rattle.price_bound.specs.YardPrices.{giving, taking};

use crate::edge_prices::EdgePrices;
use crate::priced::Pricing;
use crate::priced_costs::{Amount, amount_for, minus, plus, sum_in, types_of, weighted};
use rail_base::limits::MAX_COMPOSITION_UNITS;
use rail_base::{CompNo, LinkNo, TripNo, TypeNo};
use rail_csv::End;
use timetable::Instance;
use transitions::{Edge, Shunt};

/// The trips of a turn, and the end at which it couples.
#[derive(Clone, Copy)]
pub(crate) struct TurnTrips {
    /// The trip whose train arrives.
    pub arriving: TripNo,
    /// The trip whose train departs.
    pub departing: TripNo,
    /// The end of the departing train at which units are coupled.
    pub couple: End,
}

/// What the edges of a turn are priced: what is the same for each of them is found once.
#[derive(Drop)]
pub(crate) struct TurnPrices<'a> {
    /// What is priced.
    pub pricing: &'a Pricing<'a>,
    /// The link, which is a turn.
    pub link: LinkNo,
    /// The trips of the turn.
    pub turn: TurnTrips,
    /// What shunting costs, under the weight.
    pub shunting: Amount,
    /// The price of a unit of each type that the departing trip takes.
    pub takes: &'a [i64],
    /// The price of a unit of each type that the arriving trip gives.
    pub gives: &'a [i64],
    /// The price of each composition's units, where the arriving trip gives them, if it has been put for all.
    pub credits: &'a [i64],
    /// Whether it has.
    pub has_credits: bool,
    /// The price of each composition's units, where the departing trip takes them, if it has been put for all.
    pub debits: &'a [i64],
    /// Whether it has.
    pub has_debits: bool,
}

impl<'a> TurnPrices<'a> {
    /// The prices of the edges of a link, which is a turn of these trips.
    pub(crate) fn new(pricing: &'a Pricing<'a>, link: LinkNo, turn: TurnTrips) -> TurnPrices<'a>
        requires priced { ArePriced pricing.now }
        requires link { link < length pricing.now.instance.now.links }
        requires turn { IsTurnOf pricing.now.instance.now link turn }
        ensures pricing { result.pricing.now ≡ pricing.now }
        ensures link { result.link ≡ link }
        ensures is { IsForTurn result }
    {
        let arriving = turn.arriving.place();
        let departing = turn.departing.place();
        TurnPrices {
            pricing,
            link,
            turn,
            shunting: weighted(pricing.weight, shunting_cost(pricing.instance)),
            takes: pricing.tables.takes.row(departing).items(),
            gives: pricing.tables.gives.row(arriving).items(),
            credits: pricing.sums.credits.row(arriving).items(),
            has_credits: pricing.sums.is_whole(turn.arriving),
            debits: pricing.sums.debits.row(departing).items(),
            has_debits: pricing.sums.is_whole(turn.departing),
        }
    }

    /// What a shunt costs, under the weight.
    fn shunt_cost(&self, shunt: Shunt) -> Amount
        requires is { IsForTurn self.now }
        ensures value { result.0 ≡ weighted self.now.pricing.now.weight
            (pos (shunt_cost self.now.pricing.now.instance.now shunt)) }
        ensures small { IsSmall most_cost result.0 }
    {
        match shunt {
            Shunt::Keep => Amount(0),
            Shunt::Uncouple { .. } => self.shunting,
            Shunt::Couple { .. } => self.shunting,
            Shunt::Exchange { .. } => self.shunting,
        }
    }

    /// The price of a composition's units, where the arriving trip gives them.
    fn credit(&self, comp: CompNo) -> Amount
        requires is { IsForTurn self.now }
        requires comp { comp < length (compositions_of self.now.pricing.now.instance.now) }
        ensures value { result.0 ≡ giving self.now.pricing.now.instance.now
            self.now.pricing.now.multipliers.now self.now.turn.arriving
            (composition_at self.now.pricing.now.instance.now comp) }
        ensures small { IsSmall most_units_price result.0 }
    {
        if self.has_credits {
            return amount_for(self.credits, comp);
        }
        sum_in(self.gives, types_of(self.pricing.instance, comp))
    }

    /// The price of a composition's units, where the departing trip takes them.
    fn debit(&self, comp: CompNo) -> Amount
        requires is { IsForTurn self.now }
        requires comp { comp < length (compositions_of self.now.pricing.now.instance.now) }
        ensures value { result.0 ≡ taking self.now.pricing.now.instance.now
            self.now.pricing.now.multipliers.now self.now.turn.departing
            (composition_at self.now.pricing.now.instance.now comp) }
        ensures small { IsSmall most_units_price result.0 }
    {
        if self.has_debits {
            return amount_for(self.debits, comp);
        }
        sum_in(self.takes, types_of(self.pricing.instance, comp))
    }

    /// The price of the units that come with an edge, where the departing trip takes them, less their price where the
    /// arriving trip gives them.
    fn coupled_price(&self, edge: &Edge) -> Amount
        requires is { IsForTurn self.now }
        requires edge { IsListed (length (compositions_of self.now.pricing.now.instance.now)) edge.now }
        ensures value { result.0 ≡ coupled_price_of self.now.pricing.now.instance.now
            self.now.pricing.now.multipliers.now self.now.turn edge.now }
        ensures small { IsSmall (2 * most_units_price) result.0 }
    {
        let units = coupled(edge.shunt);
        if units == 0 {
            return Amount(0);
        }
        let came = came(
            self.turn.couple,
            units,
            types_of(self.pricing.instance, edge.to),
        );
        minus(sum_in(self.takes, came), sum_in(self.gives, came))
    }

    /// What an edge is priced, by the units that come with it.
    fn parted_price(&self, edge: &Edge) -> Amount
        requires is { IsForTurn self.now }
        requires edge { IsListed (length (compositions_of self.now.pricing.now.instance.now)) edge.now }
        ensures value { result.0 ≡ turn_value self.now.pricing.now.instance.now self.now.pricing.now.multipliers.now
            self.now.pricing.now.weight self.now.turn.arriving self.now.turn.departing self.now.turn.couple edge.now }
        ensures small { IsSmall most_edge_price result.0 }
    {
        let cost = self.shunt_cost(edge.shunt);
        let before = self.credit(edge.from);
        let after = self.credit(edge.to);
        let coupled_price = self.coupled_price(edge);
        let credit_difference = minus(before, after);
        let cost_less_credits = minus(cost, credit_difference);
        plus(cost_less_credits, coupled_price)
    }

    /// What an edge is priced that uncouples units and couples none: it gives what arrived and does not depart.
    fn uncoupling_price(&self, edge: &Edge) -> Amount
        requires is { IsForTurn self.now }
        requires edge { IsListed (length (compositions_of self.now.pricing.now.instance.now)) edge.now }
        ensures value { result.0 ≡ uncoupling_value self.now.pricing.now.instance.now
            self.now.pricing.now.multipliers.now self.now.pricing.now.weight self.now.turn.arriving edge.now }
        ensures small { IsSmall most_edge_price result.0 }
    {
        let arrived = self.credit(edge.from);
        let departing = self.credit(edge.to);
        minus(self.shunting, minus(arrived, departing))
    }

    /// What an edge is priced that couples units and uncouples none: it takes what departs and had not arrived.
    fn coupling_price(&self, edge: &Edge) -> Amount
        requires is { IsForTurn self.now }
        requires edge { IsListed (length (compositions_of self.now.pricing.now.instance.now)) edge.now }
        ensures value { result.0 ≡ coupling_value self.now.pricing.now.instance.now
            self.now.pricing.now.multipliers.now self.now.pricing.now.weight self.now.turn.departing edge.now }
        ensures small { IsSmall most_edge_price result.0 }
    {
        let arrived = self.debit(edge.from);
        let departing = self.debit(edge.to);
        plus(self.shunting, minus(departing, arrived))
    }
}

impl<'a> EdgePrices for TurnPrices<'a> {
    ghost priced = { λ prices. priced_by prices.pricing.now };

    ghost link = { λ prices. prices.link };

    ghost are_of_link = { λ prices. IsForTurn prices };

    /// What an edge of the turn is priced: the cost of shunting, and the price of the units that are taken less that of
    /// the units that are given.
    fn price(&self, edge: &Edge) -> Option<Amount> {
        match edge.shunt {
            Shunt::Keep => Some(Amount(0)),
            Shunt::Uncouple { .. } => Some(self.uncoupling_price(edge)),
            Shunt::Couple { .. } => Some(self.coupling_price(edge)),
            Shunt::Exchange { .. } => Some(self.parted_price(edge)),
        }
    }
}

/// What shunting costs.
pub(crate) fn shunting_cost(instance: &Instance) -> Amount
    ensures value { result.0 ≡ pos instance.now.weights.shunting }
    ensures small { IsSmall most_cost result.0 }
{
    Amount(i64::from(instance.weights().shunting))
}

/// How many units a shunt couples.
fn coupled(shunt: Shunt) -> usize
    ensures { result ≡ coupled shunt }
{
    match shunt {
        Shunt::Keep => 0,
        Shunt::Uncouple { .. } => 0,
        Shunt::Couple { units } => units as usize,
        Shunt::Exchange { couple, .. } => couple as usize,
    }
}

/// What came to the train, of the types that depart, where so many units were coupled at this end.
fn came(couple: End, units: usize, types: &[TypeNo]) -> &[TypeNo]
    ensures { result.now ≡ came couple units types.now }
{
    match couple {
        End::None => &types[..0],
        End::Rear => &types[types.len().saturating_sub(units)..],
        End::Front => &types[..units.min(types.len())],
    }
}
