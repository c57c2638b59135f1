// The legs of an order that passed its checks.
ghost use Rattle.std.specs.Prelude.{◌≡◌, true, map};
ghost use Rattle.strategy.specs.Few.{listed};
ghost use Rattle.orders.specs.SoundLegs.{sound, turned_leg, blank_legs};

use market::leg::TradedLeg;
use strategy::leg::Side;
use strategy::legs::Legs;

// Two to four legs in different series, each of a ratio from 1 to 12.
#[derive(Clone, Copy)]
pub struct OrderLegs {
    legs: Legs<TradedLeg>,
    ghost sound: { sound (listed legs) ≡ true },
}

impl OrderLegs {
    pub(crate) fn new(legs: Legs<TradedLeg>) -> OrderLegs
        requires { sound (listed legs) ≡ true }
        ensures { result.legs ≡ legs }
    {
        OrderLegs { legs }
    }

    pub fn as_legs(self) -> Legs<TradedLeg>
        ensures value { result ≡ self.legs }
        ensures sound { sound (listed result) ≡ true }
    {
        self.legs
    }

    // The same legs in turned terms, or as they are.
    pub fn turned(self, turned: bool) -> OrderLegs
        ensures { listed result.legs ≡ map (turned_leg turned) (listed self.legs) }
    {
        OrderLegs {
            legs: self.legs.map(|leg| TradedLeg {
                side: leg.side.turned(turned),
                ..leg
            }),
        }
    }
}

// What stands where no order does yet.
impl Default for OrderLegs {
    ghost is_default = { λ o. o.legs ≡ blank_legs };

    fn default() -> OrderLegs {
        let bought = TradedLeg {
            side: Side::Buy,
            ratio: 1,
            series: 0,
        };
        let sold = TradedLeg {
            side: Side::Sell,
            ratio: 1,
            series: 1,
        };
        OrderLegs {
            legs: Legs::Two([bought, sold]),
        }
    }
}
