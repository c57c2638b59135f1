// A leg as a market trades it: its series by number.
ghost use Rattle.std.specs.Prelude.{◌≡◌};
ghost use Rattle.market.specs.Net.{used_side};

use crate::quote::QuoteSide;
use strategy::leg::Side;

#[derive(Clone, Copy)]
pub struct TradedLeg {
    pub side: Side,
    pub ratio: u8,
    pub series: u8,
}

impl TradedLeg {
    // The side of the leg's own market that one side of the net market uses.
    pub fn used_side(self, net: QuoteSide) -> QuoteSide
        ensures { result ≡ used_side self.side net }
    {
        match self.side {
            Side::Buy => net,
            Side::Sell => net.opposite(),
        }
    }
}
