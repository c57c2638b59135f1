// An order that rests, with the units that are still to fill.
ghost use Rattle.std.specs.Prelude.{◌≡◌};
ghost use Rattle.book.specs.Resting.{blank, resting_of};

use orders::legs::OrderLegs;
use orders::turned::TurnedOrder;
use strategy::class::Class;
use strategy::leg::Side;

#[derive(Clone, Copy)]
pub struct RestingOrder {
    pub number: u16,
    pub remaining: u16,
    pub terms: TurnedOrder,
}

// What stands in a place that no order uses.
impl Default for RestingOrder {
    ghost is_default = { λ o. resting_of o ≡ blank };

    fn default() -> RestingOrder {
        RestingOrder {
            number: 0,
            remaining: 0,
            terms: TurnedOrder {
                class: Class::Other,
                width: 0,
                side: Side::Buy,
                limit: None,
                legs: OrderLegs::default(),
            },
        }
    }
}
