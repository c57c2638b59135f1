// An order in turned terms, as the gate keeps it.
ghost use Rattle.std.specs.Prelude.{◌≡◌};
ghost use Rattle.orders.specs.Entered.{entered_order};
ghost use Rattle.orders.specs.TurnedTerms.{terms_of, strategy_of, turned_terms};

use crate::legs::OrderLegs;
use crate::order::CheckedOrder;
use strategy::class::{Class, Strategy};
use strategy::leg::Side;

// One without a limit is a market order. The width is 0 where the class has none, and then nothing reads it.
#[derive(Clone, Copy)]
pub struct TurnedOrder {
    pub class: Class,
    pub width: u32,
    pub side: Side,
    pub limit: Option<i32>,
    pub legs: OrderLegs,
}

impl TurnedOrder {
    // The strategy whose terms these are.
    pub fn strategy(&self) -> Strategy
        ensures { result ≡ strategy_of self.now }
    {
        Strategy {
            class: self.class,
            width: self.width,
            turned: false,
        }
    }
}

impl CheckedOrder {
    // The order in the terms of the strategy that its legs are.
    pub fn turned(self, strategy: Strategy) -> TurnedOrder
        ensures { terms_of result ≡ turned_terms strategy (entered_order self) }
    {
        let turned = strategy.turned;
        TurnedOrder {
            class: strategy.class,
            width: strategy.width,
            side: self.side.turned(turned),
            limit: self.limit.map(|limit| if turned { -limit } else { limit }),
            legs: self.legs.turned(turned),
        }
    }
}
