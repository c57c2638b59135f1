// What every market has to do.
ghost use Rattle.std.specs.Prelude.{◌≡◌, ℕ, ◌≤◌, []};
ghost use Rattle.market.specs.declared.quote.QuoteSide.{QuoteSide};
ghost use Rattle.market.specs.Levels.{Levels, Ranked, best_of, take_answer, taken_at};

use crate::quote::{Level, MarketFault, QuoteSide};

pub trait Market {
    // the levels of each series and side
    ghost levels: { Self → Levels };

    // how many series the market covers
    ghost count: { Self → ℕ };

    // The first level.
    fn best(&self, series: usize, side: QuoteSide) -> Option<Level>
        ensures { result ≡ best_of (levels self.now series side) };

    // Takes n contracts from the first level.
    fn take(&mut self, series: usize, side: QuoteSide, n: u32) -> Result<(), MarketFault>
        ensures answer { result ≡ take_answer (levels self.old series side) n }
        ensures after { levels self.new ≡ taken_at (levels self.old) series side n }
        ensures same { count self.new ≡ count self.old };

    // each level is in range and not worse than the next
    ghost ranked: { (m : Self) (k : ℕ) (s : QuoteSide) → Ranked s (levels m k s) };

    // past the last series there is nothing
    ghost past: { (m : Self) (k : ℕ) (s : QuoteSide) → count m ≤ k → levels m k s ≡ [] };
}
