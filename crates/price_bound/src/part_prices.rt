//! What the edges of joins and splits are priced: the multiplier of the second train at the hand-over.

ghost use Rattle.std.specs.Prelude.{ℕ, ◌≡◌, ◌<◌, length, pos, slice_get};
ghost use Rattle.timetable.specs.Compositions.{compositions_of};
ghost use Rattle.price_bound.specs.TripAndLinkPrices.{IsForParts, IsSecondOf};
ghost use Rattle.price_bound.specs.CellSizes.{IsSmall, most_edge_price};
ghost use Rattle.price_bound.specs.EdgeValues.{part_multiplier};
ghost use Rattle.price_bound.specs.Pricing.{ArePriced, priced_by};

use crate::edge_prices::EdgePrices;
use crate::priced::Pricing;
use crate::priced_costs::{Amount, amount_for};
use branch_tree::CompositionSet;
use rail_base::limits::MAX_COMPOSITIONS;
use rail_base::{CompNo, LinkNo, TripNo};
use transitions::Edge;

/// What the edges of a join or a split are priced: what is the same for each of them is found once.
#[derive(Drop)]
pub(crate) struct PartPrices<'a> {
    /// What is priced.
    pub pricing: &'a Pricing<'a>,
    /// The join or the split.
    pub link: LinkNo,
    /// The compositions that the region has for the second trip.
    pub set: &'a CompositionSet,
    /// The multiplier of each composition at the hand-over of the link.
    pub multipliers: &'a [i64],
}

impl<'a> PartPrices<'a> {
    /// The prices of the edges of a link, which is a join or a split with this second trip.
    pub(crate) fn new(pricing: &'a Pricing<'a>, link: LinkNo, second: TripNo) -> PartPrices<'a>
        requires priced { ArePriced pricing.now }
        requires link { link < length pricing.now.instance.now.links }
        requires second { IsSecondOf pricing.now.instance.now link second }
        ensures pricing { result.pricing.now ≡ pricing.now }
        ensures link { result.link ≡ link }
        ensures is { IsForParts result }
    {
        PartPrices {
            pricing,
            link,
            set: pricing.region.set(second),
            multipliers: pricing.tables.parts.row(link.place()).items(),
        }
    }

    /// The multiplier of a part at the hand-over of the link.
    fn multiplier(&self, part: CompNo) -> Amount
        requires is { IsForParts self.now }
        requires part { part < length (compositions_of self.now.pricing.now.instance.now) }
        ensures value { result.0 ≡ part_multiplier self.now.pricing.now.instance.now
            self.now.pricing.now.multipliers.now self.now.link part }
        ensures small { IsSmall most_edge_price result.0 }
    {
        amount_for(self.multipliers, part)
    }
}

impl<'a> EdgePrices for PartPrices<'a> {
    ghost priced = { λ prices. priced_by prices.pricing.now };

    ghost link = { λ prices. prices.link };

    ghost are_of_link = { λ prices. IsForParts prices };

    /// What an edge of the link is priced: the multiplier of its part, if it has one.
    fn price(&self, edge: &Edge) -> Option<Amount> {
        prove!(self.pricing.instance.catalogue().len() as usize <= MAX_COMPOSITIONS);
        let Some(part) = edge.part else {
            return Some(Amount(0));
        };
        if !self.set.has(part) {
            return None;
        }
        Some(self.multiplier(part))
    }
}
