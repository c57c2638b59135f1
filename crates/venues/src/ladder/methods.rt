// What a ladder does.
ghost use Rattle.std.specs.Prelude.{◌≡◌, Ok};
ghost use Rattle.venues.specs.Ladders.{ladder_levels, rows_levels};
ghost use Rattle.market.specs.Levels.{no_levels};
ghost use Rattle.venues.specs.Ordered.{Uncrossed};
ghost use Rattle.venues.specs.LevelCalls.{level_answer, level_after, level_call, ShowsSize};
ghost use Rattle.venues.specs.Ranks.{ranked_from};
ghost use Rattle.venues.specs.Rows.{rows_ordered, row_past};

use crate::ladder::{Ladder, SERIES};
use crate::reading::read_level_call;
use crate::series::SeriesDepth;
use market::quote::{Level, MarketFault, QuoteSide};
use market::terms::LevelTerms;
use market::trading::Market;
use std::array;

impl Ladder {
    pub fn new() -> Self
        ensures { ladder_levels result ≡ no_levels }
    {
        Ladder {
            series: array::from_fn(|_| SeriesDepth::new()),
        }
    }

    // Sets the size at one price of a series and side and leaves all other prices as they were; with size 0, the price
    // leaves.
    pub fn level(&mut self, terms: LevelTerms) -> Result<(), MarketFault>
        ensures answer { result ≡ level_answer (ladder_levels self.old) terms.side (level_call 15 terms) }
        ensures after { ladder_levels self.new ≡ level_after (ladder_levels self.old) terms.side (level_call 15 terms) }
        ensures shown { result ≡ Ok tt → ShowsSize (ladder_levels self.old) (ladder_levels self.new) terms }
        ensures uncrossed { Uncrossed (ladder_levels self.new) }
    {
        let (series, level) = read_level_call(15, terms)?;
        self.series[series as usize].level(terms.side, level)
    }
}

impl Market for Ladder {
    ghost levels = { ladder_levels };

    ghost count = { λ _. 16 };

    ghost ranked = { λ m k s. ranked_from s (rows_levels m.series k s) (rows_ordered m.series k s) };

    ghost past = { λ m k s h. row_past m.series k s (rw m.size h) };

    fn best(&self, series: usize, side: QuoteSide) -> Option<Level> {
        self.series.get(series)?.first(side)
    }

    fn take(&mut self, series: usize, side: QuoteSide, n: u32) -> Result<(), MarketFault> {
        if series >= SERIES {
            return Err(MarketFault::Take);
        }
        // By its place: what a change through `get_mut` leaves of the series was not proved.
        self.series[series].take(side, n)
    }
}
