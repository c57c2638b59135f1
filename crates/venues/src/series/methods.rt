// What is done with the depth of one series.
ghost use Rattle.std.specs.Prelude.{◌≡◌, ◌≤◌};
ghost use Rattle.market.specs.Levels.{take_answer, taken, best_of};
ghost use Rattle.market.specs.Sides.{opposite};
ghost use Rattle.venues.specs.Sizes.{blocked, set_answer, set_after};
ghost use Rattle.venues.specs.Depths.{depth_levels};
ghost use Rattle.venues.specs.SeriesDepths.{no_depth, series_levels, one_side};

use crate::depth::Depth;
use crate::series::SeriesDepth;
use market::quote::{Level, MarketFault, QuoteSide};

impl SeriesDepth {
    pub(crate) fn new() -> Self
        ensures { series_levels result ≡ no_depth }
    {
        SeriesDepth {
            bids: Depth::new(),
            offers: Depth::new(),
        }
    }

    fn side(&self, side: QuoteSide) -> &Depth
        ensures { depth_levels result.now ≡ series_levels self.now side }
    {
        match side {
            QuoteSide::Bid => &self.bids,
            QuoteSide::Offer => &self.offers,
        }
    }

    pub(crate) fn first(&self, side: QuoteSide) -> Option<Level>
        ensures { result ≡ best_of (series_levels self.now side) }
    {
        self.side(side).first()
    }

    // Takes n contracts from the first level of a side.
    pub(crate) fn take(&mut self, side: QuoteSide, n: u32) -> Result<(), MarketFault>
        ensures answer { result ≡ take_answer (series_levels self.old side) n }
        ensures after { series_levels self.new ≡ one_side (series_levels self.old) side (taken (series_levels self.old side) n) }
    {
        // Each side in place: a `&mut` to one could break what holds of both.
        match side {
            QuoteSide::Bid => self.bids.take(n),
            QuoteSide::Offer => self.offers.take(n),
        }
    }

    // Sets the size at a price of a side; with size 0, the price leaves.
    pub(crate) fn level(&mut self, side: QuoteSide, level: Level) -> Result<(), MarketFault>
        requires price { (1 ≤ level.price) × (level.price ≤ 65534) }
        requires size { level.size ≤ 1000000 }
        ensures answer { result ≡ set_answer side level.price level.size (series_levels self.old side) (series_levels self.old (opposite side)) }
        ensures after { series_levels self.new ≡ one_side (series_levels self.old) side (set_after side level.price level.size (series_levels self.old side) (series_levels self.old (opposite side))) }
    {
        if is_blocked(side, level, self.first(side.opposite())) {
            return Err(MarketFault::Meets);
        }
        // Each side in place, as in `take`.
        match side {
            QuoteSide::Bid => self.bids.set(QuoteSide::Bid, level),
            QuoteSide::Offer => self.offers.set(QuoteSide::Offer, level),
        }
    }
}

// Whether a level with a size would meet the best of the other side.
fn is_blocked(side: QuoteSide, level: Level, other: Option<Level>) -> bool
    ensures { result ≡ blocked side level.price level.size other }
{
    other.is_some_and(|best| {
        level.size != 0
            && match side {
                QuoteSide::Bid => best.price <= level.price,
                QuoteSide::Offer => level.price <= best.price,
            }
    })
}
