// The execution of an order against a market.
ghost use Rattle.std.specs.Prelude.{◌≡◌, List, IfOk};
ghost use Rattle.strategy.specs.declared.leg.Leg.{Leg};
ghost use Rattle.strategy.specs.Forms.{Long};
ghost use Rattle.fills.specs.FillLaws.{Filled, FillLaw, LowBuyFills};
ghost use Rattle.fills.specs.Quotes.{quoted, executed};

use crate::fill::Fill;
use crate::quotation::{quotation, taken_side};
use market::takes::take_legs;
use market::trading::Market;
use orders::fault::GateFault;
use orders::turned::TurnedOrder;
use strategy::price::Buffers;

// Makes the fill that the quotation says: takes ratio times units of every leg, and nothing where
// the order is refused or no unit of it remains.
pub fn execute<M: Market>(
    market: &mut M,
    order: &TurnedOrder,
    remaining: u16,
    buffers: Buffers,
) -> Result<Fill, GateFault>
    ensures answer { result ≡ quoted (M.levels market.old) order.now remaining buffers }
    ensures fill { IfOk result (Filled (M.levels market.old) order.now remaining) }
    ensures law { (turned : List Leg) → Long order.now.class order.now.width turned → FillLaw (M.levels market.old) order.now remaining turned buffers result }
    ensures low { LowBuyFills (M.levels market.old) order.now remaining buffers result }
    ensures after { M.levels market.new ≡ executed (M.levels market.old) order.now result }
    ensures same { M.count market.new ≡ M.count market.old }
{
    let fill = quotation(market, order, remaining, buffers)?;
    let side = taken_side(order.side);
    // Not refused, unless there are no units: every leg has them in its first level.
    let _ = take_legs(market, &order.legs.as_legs(), side, fill.units);
    Ok(fill)
}
