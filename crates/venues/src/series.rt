// The depth of one series of a ladder, on both sides.
ghost use Rattle.std.specs.Prelude.{◌≡◌, true};
ghost use Rattle.market.specs.declared.quote.QuoteSide.TheVariants.{Bid, Offer};
ghost use Rattle.venues.specs.Depths.{depth_levels};
ghost use Rattle.market.specs.Levels.{best_of};
ghost use Rattle.venues.specs.Ordered.{ordered, apart};

use crate::depth::Depth;

#[derive(Drop)]
pub struct SeriesDepth {
    bids: Depth,
    offers: Depth,
    ghost falling: { ordered Bid (depth_levels bids) ≡ true },
    ghost rising: { ordered Offer (depth_levels offers) ≡ true },
    ghost clear: { apart (best_of (depth_levels bids)) (best_of (depth_levels offers)) ≡ true },
}

mod methods;
