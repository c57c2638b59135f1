// Quotes and levels from raw numbers.
ghost use Rattle.std.specs.Prelude.{◌≡◌, ◌≤◌, true, IfSome, IfOk};
ghost use Rattle.venues.specs.Numbers.{within};
ghost use Rattle.venues.specs.Ordered.{ok_level, apart};
ghost use Rattle.venues.specs.Quotes.{level_of, quote_of, sound};
ghost use Rattle.venues.specs.LevelCalls.{level_call};

use market::quote::{Level, MarketFault, TwoSided};
use market::terms::{LevelTerms, QuoteTerms};

// A number of low to high.
fn ranged(x: i32, low: u32, high: u32) -> Option<u32>
    ensures value { result ≡ within low high x }
    ensures bounds { IfSome result (λ n. (low ≤ n) × (n ≤ high)) }
{
    let n = u32::try_from(x).ok()?;
    (low <= n && n <= high).then_some(n)
}

// One side of a quote; the price words 0 and 65535 mean no price.
fn read_level(price: i32, size: i32) -> Result<Option<Level>, MarketFault>
    ensures value { result ≡ level_of price size }
    ensures sound { IfOk result (λ l. ok_level l ≡ true) }
{
    let price = ranged(price, 0, 65535).ok_or(MarketFault::Range)?;
    if price == 0 || price == 65535 {
        return Ok(None);
    }
    let size = ranged(size, 1, 1_000_000).ok_or(MarketFault::Range)?;
    // The range is tested above: a `try_from` would want a refusal that cannot come.
    Ok(Some(Level {
        price: price as u16,
        size,
    }))
}

// Whether a bid is below an offer, where both are there.
fn is_apart(bid: Option<Level>, offer: Option<Level>) -> bool
    ensures { result ≡ apart bid offer }
{
    match (bid, offer) {
        (Some(b), Some(o)) => b.price < o.price,
        _ => true,
    }
}

// The series of a quote and its two sides, in a market whose series are 0 to last.
pub(crate) fn read_quote(
    last: u32,
    terms: QuoteTerms,
) -> Result<(u32, TwoSided<Level>), MarketFault>
    ensures value { result ≡ quote_of last terms }
    ensures sound { IfOk result (λ p. (p.0 ≤ last) × (sound p.1 ≡ true)) }
{
    let bid = read_level(terms.bid_price, terms.bid_size)?;
    let offer = read_level(terms.offer_price, terms.offer_size)?;
    let series = ranged(terms.series, 0, last).ok_or(MarketFault::Series)?;
    if is_apart(bid, offer) {
        Ok((series, TwoSided { bid, offer }))
    } else {
        Err(MarketFault::Crossed)
    }
}

// The series and the level of a level call, in a market whose series are 0 to last.
pub(crate) fn read_level_call(last: u32, terms: LevelTerms) -> Result<(u32, Level), MarketFault>
    ensures value { result ≡ level_call last terms }
    ensures bounds { IfOk result (λ c. (c.0 ≤ last) × (1 ≤ c.1.price) × (c.1.price ≤ 65534) × (c.1.size ≤ 1000000)) }
{
    let price = ranged(terms.price, 1, 65534).ok_or(MarketFault::Range)?;
    let size = ranged(terms.size, 0, 1_000_000).ok_or(MarketFault::Range)?;
    let series = ranged(terms.series, 0, last).ok_or(MarketFault::Series)?;
    let level = Level {
        price: price as u16,
        size,
    };
    Ok((series, level))
}
