// Takes from every leg's market in one go.
ghost use Rattle.std.specs.Prelude.{◌≡◌, ◌*◌, if◌then◌else◌, Ok, Err};
ghost use Rattle.strategy.specs.Few.{listed};
ghost use Rattle.market.specs.declared.quote.MarketFault.TheVariants.{Take};
ghost use Rattle.market.specs.Takes.{leg_ready, all_ready, in_series, distinct, can_take_legs, legs_taken};

use crate::leg::TradedLeg;
use crate::quote::{MarketFault, QuoteSide};
use crate::trading::Market;
use strategy::legs::Legs;

// The contracts of a leg in some units of its strategy.
fn contracts(leg: &TradedLeg, units: u16) -> u32
    ensures { result ≡ leg.now.ratio * units }
{
    u32::from(leg.ratio) * u32::from(units)
}

fn has_series(legs: &[TradedLeg], series: u8) -> bool
    ensures { result ≡ in_series series legs.now }
{
    legs.iter().any(|leg| leg.series == series)
}

fn are_distinct(legs: &[TradedLeg]) -> bool
    ensures { result ≡ distinct legs.now }
{
    match legs {
        [] => true,
        [leg, rest @ ..] => !has_series(rest, leg.series) && are_distinct(rest),
    }
}

// Whether the level that a leg's net price uses has the contracts of some units.
fn is_ready<M: Market>(market: &M, leg: &TradedLeg, net: QuoteSide, units: u16) -> bool
    ensures { result ≡ leg_ready (M.levels market.now) net units leg.now }
{
    let n = contracts(leg, units);
    market
        .best(usize::from(leg.series), leg.used_side(net))
        .is_some_and(|level| 0 < n && n <= level.size)
}

fn are_ready<M: Market>(market: &M, legs: &[TradedLeg], net: QuoteSide, units: u16) -> bool
    ensures { result ≡ all_ready (M.levels market.now) net units legs.now }
{
    legs.iter().all(|leg| is_ready(market, leg, net, units))
}

// Takes ratio times units of each leg from the level that its net price uses, or nothing at all.
pub fn take_legs<M: Market>(
    market: &mut M,
    legs: &Legs<TradedLeg>,
    net: QuoteSide,
    units: u16,
) -> Result<(), MarketFault>
    ensures answer { result ≡ (if can_take_legs (M.levels market.old) net units (listed legs.now) then Ok tt else Err Take) }
    ensures after { M.levels market.new ≡ (if can_take_legs (M.levels market.old) net units (listed legs.now) then legs_taken (M.levels market.old) net units (listed legs.now) else M.levels market.old) }
    ensures same { M.count market.new ≡ M.count market.old }
{
    let legs = legs.as_slice();
    if !are_distinct(legs) || !are_ready(market, legs, net, units) {
        return Err(MarketFault::Take);
    }
    // A loop, since a closure that changes the market would say nothing of it.
    for leg in legs {
        market.take(
            usize::from(leg.series),
            leg.used_side(net),
            contracts(leg, units),
        )?;
    }
    Ok(())
}
