// The fill that an order would get from a market now, or why it would get none.
ghost use Rattle.std.specs.Prelude.{◌≡◌, ◌≤◌, List, IfOk};
ghost use Rattle.std.specs.List.{All};
ghost use Rattle.strategy.specs.declared.leg.Leg.{Leg};
ghost use Rattle.strategy.specs.Few.{listed, each_leg};
ghost use Rattle.strategy.specs.Forms.{Long};
ghost use Rattle.fills.specs.FillLaws.{Filled, FillLaw, LowBuyFills};
ghost use Rattle.fills.specs.Fills.{taken_side, used_level, lacking, allowed, leg_fill, past_limit};
ghost use Rattle.fills.specs.Quotes.{quoted};

use crate::fill::{Fill, LegFill};
use market::leg::TradedLeg;
use market::net::net_price;
use market::quote::{Level, QuoteSide};
use market::trading::Market;
use orders::fault::GateFault;
use orders::turned::TurnedOrder;
use strategy::leg::Side;
use strategy::legs::Legs;
use strategy::price::Buffers;

// The side of the net market that an order takes.
pub fn taken_side(side: Side) -> QuoteSide
    ensures { result ≡ taken_side side }
{
    match side {
        Side::Buy => QuoteSide::Offer,
        Side::Sell => QuoteSide::Bid,
    }
}

// A market, seen from one side of a net market.
#[derive(Clone, Copy)]
struct NetSide<'a, M> {
    market: &'a M,
    side: QuoteSide,
}

impl<M: Market> NetSide<'_, M> {
    // The first level that a leg's net price uses; without one, nothing at price 0, which is what its readers make of none.
    fn level(&self, leg: &TradedLeg) -> Level
        ensures { result ≡ used_level (M.levels self.now.market.now) self.now.side leg.now }
    {
        let series = usize::from(leg.series);
        let best = self.market.best(series, leg.used_side(self.side));
        best.unwrap_or_default()
    }

    // The first leg, from 1, whose level lacks its ratio.
    fn lacking_leg(&self, legs: &Legs<TradedLeg>) -> Option<u8>
        ensures { result ≡ lacking (M.levels self.now.market.now) self.now.side (listed legs.now) }
    {
        legs.place_where(|leg| self.level(leg).size < u32::from(leg.ratio))
    }

    // As many of some units as every leg's level has.
    fn units_allowed(&self, legs: &[TradedLeg], units: u16) -> u16
        requires { All (λ g. 1 ≤ g.ratio) legs.now }
        ensures { result ≡ allowed (M.levels self.now.market.now) self.now.side units legs.now }
    {
        // the least of two, one of them a u16
        legs.iter().fold(units, |least, leg| {
            let most = self.level(leg).size / u32::from(leg.ratio);
            most.min(u32::from(least)) as u16
        })
    }

    // The ratio of a sold leg has a minus.
    fn leg_fill(&self, leg: &TradedLeg) -> LegFill
        requires { leg.now.ratio ≤ 12 }
        ensures { result ≡ leg_fill (M.levels self.now.market.now) self.now.side leg.now }
    {
        // at most 12
        let ratio = leg.ratio as i8;
        LegFill {
            series: leg.series,
            ratio: match leg.side {
                Side::Buy => ratio,
                Side::Sell => -ratio,
            },
            price: self.level(leg).price,
        }
    }

    fn leg_fills(&self, legs: Legs<TradedLeg>) -> Legs<LegFill>
        requires { All (λ g. g.ratio ≤ 12) (listed legs) }
        ensures { result ≡ each_leg (leg_fill (M.levels self.now.market.now) self.now.side) legs }
    {
        legs.map(|leg| self.leg_fill(&leg))
    }
}

// Whether a buy is above its limit, or a sell below it.
fn is_past_limit(side: Side, net: i32, limit: Option<i32>) -> bool
    ensures { result ≡ past_limit side net limit }
{
    limit.is_some_and(|limit| match side {
        Side::Buy => net > limit,
        Side::Sell => net < limit,
    })
}

// What an order of which some units remain would get. Each argument is of another owner, and two calls make no struct of them.
pub fn quotation<M: Market>(
    market: &M,
    order: &TurnedOrder,
    remaining: u16,
    buffers: Buffers,
) -> Result<Fill, GateFault>
    ensures answer { result ≡ quoted (M.levels market.now) order.now remaining buffers }
    ensures fill { IfOk result (Filled (M.levels market.now) order.now remaining) }
    ensures law { (turned : List Leg) → Long order.now.class order.now.width turned → FillLaw (M.levels market.now) order.now remaining turned buffers result }
    ensures low { LowBuyFills (M.levels market.now) order.now remaining buffers result }
{
    let legs = order.legs.as_legs();
    let side = taken_side(order.side);
    let net_side = NetSide { market, side };
    if let Some(place) = net_side.lacking_leg(&legs) {
        return Err(GateFault::NoMarket(place));
    }
    // Every leg has a price there.
    let net = net_price(market, &legs, side).unwrap();
    if is_past_limit(order.side, net, order.limit) {
        return Err(GateFault::Limit);
    }
    let strategy = order.strategy();
    if strategy.is_prevented(order.side, i64::from(net), buffers) {
        return Err(GateFault::Prevented);
    }
    Ok(Fill {
        units: net_side.units_allowed(legs.as_slice(), remaining),
        net,
        legs: net_side.leg_fills(legs),
    })
}
