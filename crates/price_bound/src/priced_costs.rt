//! What compositions cost on trips under prices, and the sums of amounts of which they and prices are made.

ghost use Rattle.std.specs.Prelude.{ℕ, ◌≡◌, ◌<◌, ◌≤◌, ◌+◌, ◌*◌, ◌+ℤ◌, ◌-ℤ◌, [], length, get_or, take, pos, All};
ghost use Rattle.std.specs.Prelude.{IfSome, IsTrue, true, is_none, if◌then◌else◌, option_map, slice_get};
ghost use Rattle.compositions.specs.Composition.{are_types};
ghost use Rattle.timetable.specs.Compositions.{compositions_of, composition_at};
ghost use Rattle.timetable.specs.Links.{incoming, outgoing};
ghost use Rattle.branch_tree.specs.IntSums.{int_sum};
ghost use Rattle.branch_tree.specs.Meanings.{weighted};
ghost use Rattle.price_bound.specs.TripAndLinkPrices.{IsForTrip};
ghost use Rattle.price_bound.specs.CellSizes.{IsSmall, most_price, most_units_price, most_amount, most_cost};
ghost use Rattle.price_bound.specs.CellSizes.{most_chain_value, most_priced_cost};
ghost use Rattle.price_bound.specs.ChainStages.{cost_on, priced_cost_of};
ghost use Rattle.price_bound.specs.Costs.{admitted_cost};
ghost use Rattle.price_bound.specs.Credits.{AreSmallAmounts, sum_in};
ghost use Rattle.price_bound.specs.Pricing.{ArePriced, priced_by};
ghost use Rattle.price_bound.specs.Regrouped.{second_price, trip_value};
ghost use Rattle.price_bound.specs.RowValues.{is_had};
ghost use Rattle.price_bound.specs.YardPrices.{giving, taking};

use crate::costs::cost_in;
use crate::priced::Pricing;
use branch_tree::{CompositionSet, Weight};
use rail_base::limits::{MAX_COMPOSITION_UNITS, MAX_COMPOSITIONS};
use rail_base::{CompNo, Money, TripNo, TypeNo};
use timetable::Instance;

/// An amount that 64 bits hold: a price, a cost or a priced cost.
#[derive(Clone, Copy)]
pub(crate) struct Amount(pub i64);

/// What compositions cost on a trip under prices: what is the same for each of them is found once.
#[derive(Drop)]
pub(crate) struct PricedCosts<'a> {
    /// What is priced.
    pub pricing: &'a Pricing<'a>,
    /// The trip.
    pub trip: TripNo,
    /// The compositions that the region has for the trip.
    pub set: &'a CompositionSet,
    /// What the trip costs with each composition.
    pub costs: &'a [i64],
    /// Whether the cost counts.
    pub weight: Weight,
    /// Whether no link leads into the trip, so that it takes all its units.
    pub begins: bool,
    /// The price of each composition's units, where the trip takes them.
    pub debits: &'a [i64],
    /// Whether no link leads on from the trip, so that it gives all its units.
    pub ends: bool,
    /// The price of each composition's units, where the trip gives them.
    pub credits: &'a [i64],
    /// The multipliers of each composition at the hand-overs to the trip.
    pub seconds: &'a [i64],
}

impl<'a> PricedCosts<'a> {
    /// The priced costs of compositions on a trip.
    pub(crate) fn new(pricing: &'a Pricing<'a>, trip: TripNo) -> PricedCosts<'a>
        requires priced { ArePriced pricing.now }
        requires trip { trip < length pricing.now.instance.now.trips }
        ensures pricing { result.pricing.now ≡ pricing.now }
        ensures trip { result.trip ≡ trip }
        ensures is { IsForTrip result }
    {
        let row = trip.place();
        PricedCosts {
            pricing,
            trip,
            set: pricing.region.set(trip),
            costs: pricing.costs.row(row).items(),
            weight: pricing.weight,
            begins: pricing.instance.incoming(trip).is_none(),
            debits: pricing.sums.debits.row(row).items(),
            ends: pricing.instance.outgoing(trip).is_none(),
            credits: pricing.sums.credits.row(row).items(),
            seconds: pricing.tables.seconds.row(row).items(),
        }
    }

    /// What a composition costs on the trip under prices, or nothing where the trip may not have it in the region.
    pub(crate) fn priced_cost(&self, comp: CompNo) -> Option<Amount>
        requires is { IsForTrip self.now }
        requires comp { comp < length (compositions_of self.now.pricing.now.instance.now) }
        ensures value { option_map (λ priced_cost. priced_cost.0) result
            ≡ priced_cost_of (priced_by self.now.pricing.now) self.now.trip comp }
        ensures small { IfSome result (λ priced_cost. IsSmall
            (most_priced_cost (is_none (outgoing self.now.pricing.now.instance.now self.now.trip))) priced_cost.0) }
    {
        prove!(self.pricing.instance.catalogue().len() as usize <= MAX_COMPOSITIONS);
        if !self.set.has(comp) {
            return None;
        }
        self.of_member(comp)
    }

    /// What a composition that the region has for the trip costs on it under prices, or nothing where it may not run on
    /// the trip.
    pub(crate) fn of_member(&self, comp: CompNo) -> Option<Amount>
        requires is { IsForTrip self.now }
        requires comp { comp < length (compositions_of self.now.pricing.now.instance.now) }
        requires member { is_had self.now comp ≡ true }
        ensures value { option_map (λ priced_cost. priced_cost.0) result
            ≡ priced_cost_of (priced_by self.now.pricing.now) self.now.trip comp }
        ensures small { IfSome result (λ priced_cost. IsSmall
            (most_priced_cost (is_none (outgoing self.now.pricing.now.instance.now self.now.trip))) priced_cost.0) }
    {
        let cost = self.cost(comp)?;
        Some(self.trip_value(comp, weighted(self.weight, cost)))
    }

    /// What the trip costs with a composition, or nothing where the composition may not run on it.
    fn cost(&self, comp: CompNo) -> Option<Amount>
        requires is { IsForTrip self.now }
        requires comp { comp < length (compositions_of self.now.pricing.now.instance.now) }
        ensures value { option_map (λ cost. cost.0) result
            ≡ admitted_cost self.now.pricing.now.instance.now self.now.pricing.now.changes.now self.now.trip comp }
        ensures small { IfSome result (λ cost. IsSmall most_cost cost.0) }
    {
        cost_in(amount_for(self.costs, comp))
    }

    /// What the trip adds by a composition, with which it has this cost under the weight.
    fn trip_value(&self, comp: CompNo, cost: Amount) -> Amount
        requires is { IsForTrip self.now }
        requires comp { comp < length (compositions_of self.now.pricing.now.instance.now) }
        requires member { is_had self.now comp ≡ true }
        requires cost { cost.0 ≡ weighted self.now.pricing.now.weight
            (pos (cost_on (priced_by self.now.pricing.now) self.now.trip comp)) }
        requires few { IsSmall most_cost cost.0 }
        ensures value { result.0 ≡ trip_value self.now.pricing.now.instance.now
            (cost_on (priced_by self.now.pricing.now)) self.now.pricing.now.multipliers.now
            self.now.pricing.now.weight self.now.trip comp }
        ensures small { IsSmall
            (most_priced_cost (is_none (outgoing self.now.pricing.now.instance.now self.now.trip))) result.0 }
    {
        let taken_price = self.taken_at_begin(comp);
        let given_price = self.given_at_end(comp);
        let second_price = self.second(comp);
        let cost_and_taken = plus(cost, taken_price);
        let less_given = minus(cost_and_taken, given_price);
        minus(less_given, second_price)
    }

    /// The price of a composition's units, where no link leads into the trip.
    fn taken_at_begin(&self, comp: CompNo) -> Amount
        requires is { IsForTrip self.now }
        requires comp { comp < length (compositions_of self.now.pricing.now.instance.now) }
        requires member { is_had self.now comp ≡ true }
        ensures value { result.0 ≡ (if is_none (incoming self.now.pricing.now.instance.now self.now.trip)
            then taking self.now.pricing.now.instance.now self.now.pricing.now.multipliers.now self.now.trip
            (composition_at self.now.pricing.now.instance.now comp)
            else pos 0) }
        ensures small { IsSmall most_units_price result.0 }
    {
        if !self.begins {
            return Amount(0);
        }
        amount_for(self.debits, comp)
    }

    /// The price of a composition's units, where no link leads on from the trip.
    fn given_at_end(&self, comp: CompNo) -> Amount
        requires is { IsForTrip self.now }
        requires comp { comp < length (compositions_of self.now.pricing.now.instance.now) }
        requires member { is_had self.now comp ≡ true }
        ensures value { result.0 ≡ (if is_none (outgoing self.now.pricing.now.instance.now self.now.trip)
            then giving self.now.pricing.now.instance.now self.now.pricing.now.multipliers.now self.now.trip
            (composition_at self.now.pricing.now.instance.now comp)
            else pos 0) }
        ensures small { IsSmall most_units_price result.0 }
    {
        if !self.ends {
            return Amount(0);
        }
        amount_for(self.credits, comp)
    }

    /// The multipliers of a composition at the hand-overs to the trip.
    fn second(&self, comp: CompNo) -> Amount
        requires is { IsForTrip self.now }
        requires comp { comp < length (compositions_of self.now.pricing.now.instance.now) }
        ensures value { result.0 ≡ second_price self.now.pricing.now.instance.now
            self.now.pricing.now.multipliers.now self.now.trip comp }
        ensures small { IsSmall most_price result.0 }
    {
        amount_for(self.seconds, comp)
    }
}

/// The types of a composition, front to rear.
pub(crate) fn types_of(instance: &Instance, comp: CompNo) -> &[TypeNo]
    requires { comp < length (compositions_of instance.now) }
    ensures value { result.now ≡ composition_at instance.now comp }
    ensures few { length result.now ≤ MAX_COMPOSITION_UNITS }
    ensures known { All (λ m. m < length instance.now.types) result.now }
    ensures listed { IsTrue (are_types instance.now.types result.now) }
{
    instance.catalogue().get(comp).units()
}

/// A cost under a weight.
pub(crate) fn weighted(weight: Weight, cost: Amount) -> Amount
    requires { IsSmall most_cost cost.0 }
    ensures value { result.0 ≡ weighted weight cost.0 }
    ensures small { IsSmall most_cost result.0 }
{
    match weight {
        Weight::Cost => cost,
        Weight::NoCost => Amount(0),
    }
}

/// What a row has for a composition.
pub(crate) fn amount_for(amounts: &[i64], comp: CompNo) -> Amount
    requires { comp < length amounts.now }
    ensures { result.0 ≡ get_or amounts.now comp (pos 0) }
{
    Amount(amounts[comp.place()])
}

/// The sum of what there is for each of these types.
pub(crate) fn sum_in(amounts: &[i64], types: &[TypeNo]) -> Amount
    requires few { length types.now ≤ MAX_COMPOSITION_UNITS }
    requires known { All (λ m. m < length amounts.now) types.now }
    requires small { AreSmallAmounts amounts.now }
    ensures value { result.0 ≡ sum_in amounts.now types.now }
    ensures small { IsSmall most_units_price result.0 }
{
    let mut sum = Amount(0);
    for place in 0..types.len() {
        let amount = amount_of(amounts, types[place]);
        sum = plus(sum, amount);
    }
    sum
}

/// What there is for a type.
pub(crate) fn amount_of(amounts: &[i64], unit_type: TypeNo) -> Amount
    requires { unit_type < length amounts.now }
    ensures { result.0 ≡ get_or amounts.now unit_type (pos 0) }
{
    Amount(amounts[unit_type.place()])
}

/// The sum of two amounts.
pub(crate) fn plus(amount: Amount, more: Amount) -> Amount
    requires amount { IsSmall most_amount amount.0 }
    requires more { IsSmall most_amount more.0 }
    ensures { result.0 ≡ amount.0 +ℤ more.0 }
{
    Amount(amount.0 + more.0)
}

/// An amount less another.
pub(crate) fn minus(amount: Amount, other: Amount) -> Amount
    requires amount { IsSmall most_amount amount.0 }
    requires other { IsSmall most_amount other.0 }
    ensures { result.0 ≡ amount.0 -ℤ other.0 }
{
    Amount(amount.0 - other.0)
}

/// Two values together.
pub(crate) fn added(value: Money, more: Money) -> Money
    requires value { IsSmall most_chain_value value.0 }
    requires more { IsSmall most_chain_value more.0 }
    ensures { result.0 ≡ value.0 +ℤ more.0 }
{
    Money(value.0 + more.0)
}
