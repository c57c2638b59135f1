// An order that passed its checks.
ghost use Rattle.std.specs.Prelude.{◌≡◌, true};
ghost use Rattle.orders.specs.Ranges.{limit_in_range};

use crate::legs::OrderLegs;
use crate::quantity::Quantity;
use crate::records::Channel;
use strategy::leg::Side;

// An order without a limit is a market order.
#[derive(Clone, Copy)]
pub struct CheckedOrder {
    pub side: Side,
    pub limit: Option<i32>,
    pub quantity: Quantity,
    pub channel: Channel,
    pub legs: OrderLegs,
    ghost limited: { limit_in_range limit ≡ true },
}
