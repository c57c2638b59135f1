// The net market of a strategy's legs.
ghost use Rattle.std.specs.Prelude.{◌≡◌, ◌*◌, ◌≤◌, length, pos, neg_ℤ, ◌≤ℤ◌};
ghost use Rattle.strategy.specs.Few.{listed};
ghost use Rattle.strategy.specs.Payoff.{signed};
ghost use Rattle.market.specs.Net.{net_side, net_market};

use crate::leg::TradedLeg;
use crate::quote::{QuoteSide, TwoSided};
use crate::trading::Market;
use strategy::leg::Side;
use strategy::legs::Legs;

// Ratio times the price, negative for a sold leg.
fn signed_price(leg: &TradedLeg, price: u16) -> i32
    ensures value { result ≡ signed leg.now.side (leg.now.ratio * price) }
    ensures small { (neg_ℤ (pos 16711425) ≤ℤ result) × (result ≤ℤ pos 16711425) }
{
    let amount = i32::from(leg.ratio) * i32::from(price);
    match leg.side {
        Side::Buy => amount,
        Side::Sell => -amount,
    }
}

fn net_side<M: Market>(market: &M, legs: &[TradedLeg], side: QuoteSide) -> Option<i32>
    requires { length legs.now ≤ 4 }
    ensures { result ≡ net_side (M.levels market.now) legs.now side }
{
    // A loop: an iterator's sum has no bound that a contract could give, and says nothing of a missing price.
    let mut sum: i32 = 0;
    for leg in legs {
        let level = market.best(usize::from(leg.series), leg.used_side(side))?;
        sum += signed_price(leg, level.price);
    }
    Some(sum)
}

// One side of the net market.
pub fn net_price<M: Market>(market: &M, legs: &Legs<TradedLeg>, side: QuoteSide) -> Option<i32>
    ensures { result ≡ net_side (M.levels market.now) (listed legs.now) side }
{
    net_side(market, legs.as_slice(), side)
}

// The net market: the net offer adds ratio times offer of bought legs and subtracts ratio times bid
// of sold ones, the net bid uses the opposite sides, and each is absent where one of its prices is.
pub fn net_market<M: Market>(market: &M, legs: &Legs<TradedLeg>) -> TwoSided<i32>
    ensures { result ≡ net_market (M.levels market.now) (listed legs.now) }
{
    let legs = legs.as_slice();
    TwoSided {
        bid: net_side(market, legs, QuoteSide::Bid),
        offer: net_side(market, legs, QuoteSide::Offer),
    }
}
