//! Credits and debits: for each trip and composition the price of the composition's units, where the trip gives them,
//! and where it takes them.
//!
//! They are made once for each bound, so that few edges sum up the units of whole trains: for all compositions of a
//! trip where these are asked for, and else for the members of the trip's set. A composition is one without the unit at
//! its rear, which has a lower number or no units, and that unit: so each sum takes one step. A row has one place more
//! than there are compositions, for no units.

ghost use Rattle.std.specs.Prelude.{◌≡◌, ◌<◌, ◌+◌, ◌*◌, [], get_or, suc, length, true, IfOk, IsTrue};
ghost use Rattle.rules.specs.declared.records.End.TheVariants as at;
ghost use Rattle.timetable.specs.Compositions.{compositions_of, composition_at};
ghost use Rattle.branch_tree.specs.Sets.{is_member};
ghost use Rattle.price_bound.specs.declared.credits.UnitSums.{UnitSums};
ghost use Rattle.price_bound.specs.CellSizes.{IsSmall, most_units_price};
ghost use Rattle.price_bound.specs.CompositionTrees.{AreEach, AreTrains, IsLast, IsRest};
ghost use Rattle.price_bound.specs.Credits.{AreAllByType, AreByType, AreMembersPut, AreSumsBefore, AreSumsOf};
ghost use Rattle.price_bound.specs.Credits.{AreSumsPut, AreTripSums, HaveSumRoom, IsFree, IsTripPut, is_whole};
ghost use Rattle.price_bound.specs.Credits.{sum_in};

use crate::amounts::AmountTable;
use crate::passes::{place_at, value_at};
use crate::price_tables::PriceTables;
use crate::priced_costs::{Amount, amount_of, plus, sum_in, types_of};
use crate::trains::Trains;
use branch_tree::sets::{WORD_BITS, WORDS};
use branch_tree::{CompositionSet, Region};
use rail_base::limits::MAX_COMPOSITIONS;
use rail_base::{CompNo, NoMemory, TripNo, TypeNo};
use std::alloc::Global;
use timetable::Instance;

/// A region has few compositions for a trip where so many times their number is at most that of all compositions.
const FEW: usize = 8;

/// What a unit of each type costs, where a trip gives it and where the trip takes it.
#[derive(Drop)]
pub(crate) struct UnitPrices<'a> {
    /// Where the trip gives it.
    pub gives: &'a [i64],
    /// Where the trip takes it.
    pub takes: &'a [i64],
}

impl<'a> UnitPrices<'a> {
    /// True only where units of no type cost anything, where the trip gives them and where it takes them.
    pub(crate) fn are_free(&self) -> bool
        ensures gives { IsTrue result → IsFree self.now.gives.now }
        ensures takes { IsTrue result → IsFree self.now.takes.now }
    {
        is_free(self.gives) && is_free(self.takes)
    }
}

/// True only where units of no type cost anything.
fn is_free(amounts: &[i64]) -> bool
    ensures { IsTrue result → IsFree amounts.now }
{
    for place in 0..amounts.len() {
        if amounts[place] != 0 {
            return false;
        }
    }
    true
}

/// The prices of compositions' units.
#[derive(Drop)]
pub(crate) struct UnitSums {
    /// For each trip and composition for which the trip has them, the price of the composition's units, where the trip
    /// gives them; and a place for no units.
    pub credits: AmountTable,
    /// The same, where the trip takes them.
    pub debits: AmountTable,
    /// For which compositions each trip has them.
    pub summed: Vec<Summed>,
}

/// For which compositions a trip has the prices of units.
#[derive(Clone, Copy)]
pub(crate) enum Summed {
    /// For the members of the trip's set, which are few.
    Members,
    /// For all, since a link leads to the trip from one for which the region has many compositions.
    Whole,
    /// For all, since the region has many compositions for the trip.
    Many,
}

impl UnitSums {
    /// Room for each trip and composition of a day. The error is want of memory.
    pub(crate) fn new(alloc: Global, instance: &Instance) -> Result<UnitSums, NoMemory>
        ensures { IfOk result (HaveSumRoom instance.now) }
    {
        let trips = instance.trips() as usize;
        let comps = instance.catalogue().len() as usize;
        let credits = AmountTable::new(alloc, trips, comps + 1)?;
        let debits = AmountTable::new(alloc, trips, comps + 1)?;
        let summed = vec![in alloc; Summed::Members; trips]?;
        Ok(UnitSums {
            credits,
            debits,
            summed,
        })
    }

    /// Whether a trip has the prices of all compositions.
    pub(crate) fn is_whole(&self, trip: TripNo) -> bool
        requires { trip < length self.now.summed.items }
        ensures { result ≡ is_whole self.now.summed.items trip }
    {
        match self.summed[trip.place()] {
            Summed::Members => false,
            Summed::Whole => true,
            Summed::Many => true,
        }
    }

    /// Whether the region has many compositions for a trip. Then the trip has the prices of all.
    pub(crate) fn has_many(&self, trip: TripNo) -> bool
        requires { trip < length self.now.summed.items }
        ensures { IsTrue result → is_whole self.now.summed.items trip ≡ true }
    {
        match self.summed[trip.place()] {
            Summed::Members => false,
            Summed::Whole => false,
            Summed::Many => true,
        }
    }

    /// Puts the sums that are asked for at a trip: of all compositions, or of the members of the trip's set.
    fn put_trip(
        &mut self,
        instance: &Instance,
        trains: &Trains,
        tables: &PriceTables,
        region: &Region,
        trip: TripNo,
    )
        requires trains { AreTrains instance.now trains.now }
        requires gives { AreAllByType instance.now tables.now.gives }
        requires takes { AreAllByType instance.now tables.now.takes }
        requires region { length region.now ≡ length instance.now.trips }
        requires trip { trip < length instance.now.trips }
        requires room { HaveSumRoom instance.now self.old }
        ensures { IsTripPut instance.now region.now (get_or tables.now.gives trip [])
            (get_or tables.now.takes trip []) trip self.old self.new }
    {
        let row = trip.place();
        let prices = UnitPrices {
            gives: tables.gives.row(row).items(),
            takes: tables.takes.row(row).items(),
        };
        let summed = asked_for(instance, region, trip, trains.fronts.len());
        self.summed[row] = summed;
        match summed {
            Summed::Members => self.put_members(instance, region.set(trip), trip, &prices),
            _ => self.put_all(instance, trains, trip, &prices),
        }
    }

    /// Puts the sums of a trip for all compositions.
    fn put_all(
        &mut self,
        instance: &Instance,
        trains: &Trains,
        trip: TripNo,
        prices: &UnitPrices<'_>,
    )
        requires trains { AreTrains instance.now trains.now }
        requires gives { AreByType instance.now prices.now.gives.now }
        requires takes { AreByType instance.now prices.now.takes.now }
        requires trip { trip < length instance.now.trips }
        requires room { HaveSumRoom instance.now self.old }
        ensures { AreMembersPut instance.now prices.now.gives.now prices.now.takes.now trip (λ comp. true)
            (length (compositions_of instance.now)) self.old self.new }
    {
        self.credits
            .put_sums(&mut self.debits, trip.place(), instance, trains, prices);
    }

    /// Puts the sums of a trip for the members of a set.
    fn put_members(
        &mut self,
        instance: &Instance,
        set: &CompositionSet,
        trip: TripNo,
        prices: &UnitPrices<'_>,
    )
        requires gives { AreByType instance.now prices.now.gives.now }
        requires takes { AreByType instance.now prices.now.takes.now }
        requires trip { trip < length instance.now.trips }
        requires room { HaveSumRoom instance.now self.old }
        ensures { AreMembersPut instance.now prices.now.gives.now prices.now.takes.now trip (is_member set.now)
            (length (compositions_of instance.now)) self.old self.new }
    {
        prove!(instance.catalogue().len() as usize <= MAX_COMPOSITIONS);
        let used = WORDS.min(instance.catalogue().len() as usize / WORD_BITS + 1);
        for place in 0..used {
            self.put_word(instance, set, place, trip, prices);
        }
    }

    /// Puts the sums of a trip for the members of a set that a word of it tells of.
    fn put_word(
        &mut self,
        instance: &Instance,
        set: &CompositionSet,
        place: usize,
        trip: TripNo,
        prices: &UnitPrices<'_>,
    )
        requires gives { AreByType instance.now prices.now.gives.now }
        requires takes { AreByType instance.now prices.now.takes.now }
        requires place { place < WORDS }
        requires trip { trip < length instance.now.trips }
        requires room { HaveSumRoom instance.now self.old }
        ensures { (sums : UnitSums) → AreMembersPut instance.now prices.now.gives.now prices.now.takes.now trip
            (is_member set.now) (place * WORD_BITS) sums self.old
            → AreMembersPut instance.now prices.now.gives.now prices.now.takes.now trip (is_member set.now)
            (place * WORD_BITS + WORD_BITS) sums self.new }
    {
        prove!(instance.catalogue().len() as usize <= MAX_COMPOSITIONS);
        let word = set.words()[place];
        if word == 0 {
            return;
        }
        let begin = (place * WORD_BITS) as u32;
        let end = (begin + WORD_BITS as u32).min(instance.catalogue().len());
        let mut left = word;
        for comp in begin..end {
            if left == 0 {
                return;
            }
            if left % 2 == 1 {
                self.put_comp(instance, trip, CompNo(comp), prices);
            }
            left /= 2;
        }
    }

    /// Puts the sums of a trip for a composition.
    fn put_comp(&mut self, instance: &Instance, trip: TripNo, comp: CompNo, prices: &UnitPrices<'_>)
        requires gives { AreByType instance.now prices.now.gives.now }
        requires takes { AreByType instance.now prices.now.takes.now }
        requires comp { comp < length (compositions_of instance.now) }
        ensures { AreSumsPut instance.now prices.now.gives.now prices.now.takes.now trip comp self.old self.new }
    {
        let types = types_of(instance, comp);
        let credit = sum_in(prices.gives, types);
        let debit = sum_in(prices.takes, types);
        self.credits.put(trip.place(), comp.place(), credit.0);
        self.debits.put(trip.place(), comp.place(), debit.0);
    }
}

/// For which of so many compositions the sums of a trip are asked for.
fn asked_for(instance: &Instance, region: &Region, trip: TripNo, comps: usize) -> Summed
    requires region { length region.now ≡ length instance.now.trips }
    requires trip { trip < length instance.now.trips }
{
    if has_many(region.set(trip), comps) {
        return Summed::Many;
    }
    let Some(link) = instance.incoming(trip) else {
        return Summed::Members;
    };
    let before = instance.link(link).kind.leads_from();
    if has_many(region.set(before), comps) {
        return Summed::Whole;
    }
    Summed::Members
}

/// Whether a set has many of so many compositions. That it has so many of the first ones is seen at once.
fn has_many(set: &CompositionSet, comps: usize) -> bool {
    let words = set.words();
    let many = comps / FEW + 1;
    if words[0].trailing_ones() as usize >= many {
        return true;
    }
    let used = words.len().min(comps / WORD_BITS + 1);
    let mut left = many;
    for place in 0..used {
        if words[place] == 0 {
            continue;
        }
        let ones = words[place].count_ones() as usize;
        if left <= ones {
            return true;
        }
        left -= ones;
    }
    false
}

/// Puts the credits and the debits of each trip: the sums of what the trip gives and takes units of a composition's
/// types for, of those compositions for which they are asked in a region. It takes no memory.
pub(crate) fn fill_sums(
    instance: &Instance,
    trains: &Trains,
    tables: &PriceTables,
    region: &Region,
    sums: &mut UnitSums,
)
    requires trains { AreTrains instance.now trains.now }
    requires gives { AreAllByType instance.now tables.now.gives }
    requires takes { AreAllByType instance.now tables.now.takes }
    requires region { length region.now ≡ length instance.now.trips }
    requires room { HaveSumRoom instance.now sums.old }
    ensures { AreTripSums instance.now region.now tables.now.gives tables.now.takes (length instance.now.trips)
        sums.new }
{
    for trip in 0..instance.trips() {
        sums.put_trip(instance, trains, tables, region, TripNo(trip));
    }
}

/// Puts for each composition the sum of what its units cost where they are given, and where they are taken: the
/// compositions go by the type of the unit at the rear, and by the place without it. No units cost nothing.
pub(crate) fn put_sums(
    instance: &Instance,
    fronts: &[u32],
    lasts: &[TypeNo],
    prices: &UnitPrices<'_>,
    credits: &mut [i64],
    debits: &mut [i64],
)
    requires fronts { AreEach (IsRest instance.now at.Rear) (length (compositions_of instance.now)) fronts.now }
    requires lasts { AreEach (IsLast instance.now) (length (compositions_of instance.now)) lasts.now }
    requires gives { AreByType instance.now prices.now.gives.now }
    requires takes { AreByType instance.now prices.now.takes.now }
    requires credits { length credits.old ≡ suc (length (compositions_of instance.now)) }
    requires debits { length debits.old ≡ suc (length (compositions_of instance.now)) }
    ensures credits { AreSumsOf instance.now prices.now.gives.now credits.new }
    ensures debits { AreSumsOf instance.now prices.now.takes.now debits.new }
{
    let gives = prices.gives;
    let takes = prices.takes;
    credits[fronts.len()] = 0;
    debits[fronts.len()] = 0;
    for comp in 0..fronts.len() {
        let credit = sum_by(instance, fronts, lasts, gives, credits, comp);
        let debit = sum_by(instance, fronts, lasts, takes, debits, comp);
        credits[comp] = credit.0;
        debits[comp] = debit.0;
    }
}

/// The sum for a composition, after those for all lower ones.
fn sum_by(
    instance: &Instance,
    fronts: &[u32],
    lasts: &[TypeNo],
    amounts: &[i64],
    sums: &[i64],
    comp: usize,
) -> Amount
    requires comp { comp < length (compositions_of instance.now) }
    requires fronts { AreEach (IsRest instance.now at.Rear) (length (compositions_of instance.now)) fronts.now }
    requires lasts { AreEach (IsLast instance.now) (length (compositions_of instance.now)) lasts.now }
    requires amounts { AreByType instance.now amounts.now }
    requires sums { AreSumsBefore instance.now amounts.now comp sums.now }
    ensures value { result.0 ≡ sum_in amounts.now (composition_at instance.now comp) }
    ensures small { IsSmall most_units_price result.0 }
{
    let place = place_at(fronts, comp);
    let rest = value_at(sums, place);
    let last = amount_of(amounts, lasts[comp]);
    plus(rest, last)
}
