//! What prices the edges of a link, whatever its kind.

ghost use Rattle.std.specs.Prelude.{ℕ, ◌≡◌, IfSome, Some, option_map};
ghost use Rattle.transitions.specs.Edges.{IsEdge};
ghost use Rattle.price_bound.specs.CellRows.{comps_of};
ghost use Rattle.price_bound.specs.CellSizes.{IsSmall, most_edge_price};
ghost use Rattle.price_bound.specs.ChainStages.{Priced, price_of};
ghost use Rattle.price_bound.specs.Pricing.{IsListed};

use crate::priced_costs::Amount;
use transitions::Edge;

/// What prices the edges of a link.
pub(crate) trait EdgePrices {
    /// What is priced.
    ghost priced: { Self → Priced };

    /// The link.
    ghost link: { Self → ℕ };

    /// Whether the amounts are those of the link.
    ghost are_of_link: { Self → Type 0 };

    /// What an edge of the link is priced, or nothing where it has a part that is not in the region.
    fn price(&self, edge: &Edge) -> Option<Amount>
        requires is { are_of_link self.now }
        requires edge { IsListed (comps_of (priced self.now)) edge.now }
        requires allowed { IsEdge (priced self.now).day (link self.now) edge.now }
        ensures value { option_map (λ price. price.0) result
            ≡ price_of (priced self.now) (Some (link self.now)) edge.now }
        ensures small { IfSome result (λ price. IsSmall most_edge_price price.0) };
}
