// What a board does.
ghost use Rattle.std.specs.Prelude.{◌≡◌};
ghost use Rattle.venues.specs.Boards.{board_levels};
ghost use Rattle.market.specs.Levels.{no_levels};
ghost use Rattle.venues.specs.Ordered.{Uncrossed};
ghost use Rattle.venues.specs.Quotes.{quote_answer, quote_of, quoted_levels};
ghost use Rattle.venues.specs.Tables.{ranked_quote, table_past};

use crate::board::{Board, SERIES};
use crate::reading::read_quote;
use crate::taking::take_level;
use market::quote::{Level, MarketFault, QuoteSide, TwoSided};
use market::terms::QuoteTerms;
use market::trading::Market;

impl Board {
    pub fn new() -> Self
        ensures { board_levels result ≡ no_levels }
    {
        Board {
            quotes: [TwoSided {
                bid: None,
                offer: None,
            }; 256],
        }
    }

    // Replaces both sides of a series' quote; the price words 0 and 65535 mean no price.
    pub fn quote(&mut self, terms: QuoteTerms) -> Result<(), MarketFault>
        ensures answer { result ≡ quote_answer (quote_of 255 terms) }
        ensures after { board_levels self.new ≡ quoted_levels (board_levels self.old) (quote_of 255 terms) }
        ensures uncrossed { Uncrossed (board_levels self.new) }
    {
        let (series, quote) = read_quote(255, terms)?;
        self.quotes[series as usize] = quote;
        Ok(())
    }
}

impl Market for Board {
    ghost levels = { board_levels };

    ghost count = { λ _. 256 };

    ghost ranked = { λ m k s. ranked_quote _ s (m.ok k) };

    ghost past = { λ m k s h. table_past m.quotes k s (rw m.size h) };

    fn best(&self, series: usize, side: QuoteSide) -> Option<Level> {
        self.quotes.get(series)?.side(side)
    }

    fn take(&mut self, series: usize, side: QuoteSide, n: u32) -> Result<(), MarketFault> {
        if series >= SERIES {
            return Err(MarketFault::Take);
        }
        // By its place: what a change through `get_mut` leaves of the table was not proved.
        let quote = self.quotes[series];
        let rest = take_level(quote.side(side), n)?;
        self.quotes[series] = quote.with(side, rest);
        Ok(())
    }
}
