// Takes from a first level.
ghost use Rattle.std.specs.Prelude.{◌≡◌};
ghost use Rattle.venues.specs.Quotes.{taken_level};

use market::quote::{Level, MarketFault};

// What a take of n contracts leaves of a first level.
pub(crate) fn take_level(first: Option<Level>, n: u32) -> Result<Option<Level>, MarketFault>
    ensures { result ≡ taken_level first n }
{
    match first {
        Some(l) if 0 < n && n <= l.size => Ok(
            (l.size > n).then_some(Level {
                size: l.size - n,
                ..l
            }),
        ),
        _ => Err(MarketFault::Take),
    }
}
