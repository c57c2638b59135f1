// The board: 256 series with one level a side.
ghost use Rattle.std.specs.Prelude.{◌≡◌, ℕ, true, length, slice_index_or};
ghost use Rattle.venues.specs.Quotes.{sound, no_quote};

use market::quote::{Level, TwoSided};

const SERIES: usize = 256;

// Fixed memory: the series is the place.
#[derive(Drop)]
pub struct Board {
    // by series, in fixed memory
    quotes: [TwoSided<Level>; 256],
    ghost size: { length quotes ≡ 256 },
    ghost ok: { (k : ℕ) → sound (slice_index_or quotes k no_quote) ≡ true },
}

mod methods;
