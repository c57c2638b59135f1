// The checks of an order and of its legs.
ghost use Rattle.std.specs.Prelude.{◌≡◌, List, [], ◌∷◌, Ok};
ghost use Rattle.strategy.specs.Few.{listed};
ghost use Rattle.orders.specs.declared.fault.OrderFault.TheVariants.{Range};
ghost use Rattle.orders.specs.declared.records.LegTerms.{LegTerms};
ghost use Rattle.orders.specs.Checks.{map_ok, check, amount};
ghost use Rattle.orders.specs.LegLists.{abridged};
ghost use Rattle.orders.specs.Ranges.{limit_in_range, quantity_in_range};
ghost use Rattle.orders.specs.Orders.{legs_in_range, legs_checked, checked_legs, whole_checked};
ghost use Rattle.orders.specs.Entered.{units_of, legs_in, entered_order, checked_order, whole_order};

use crate::conditions::{reducible, repeated, uneven};
use crate::fault::OrderFault;
use crate::legs::OrderLegs;
use crate::order::CheckedOrder;
use crate::quantity::Quantity;
use crate::records::{LegList, LegTerms, OrderTerms};
use market::leg::TradedLeg;
use strategy::legs::Legs;

// Whether a limit is in range; a market order has none.
fn limit_in_range(limit: Option<i32>) -> bool
    ensures { result ≡ limit_in_range limit }
{
    limit.is_none_or(|limit| (-20_000_000..=20_000_000).contains(&limit))
}

fn checked_quantity(quantity: i32) -> Result<Quantity, OrderFault>
    ensures { map_ok units_of result ≡ check (quantity_in_range quantity) (Range 0) (Ok (amount quantity)) }
{
    u16::try_from(quantity)
        .ok()
        .and_then(Quantity::new)
        .ok_or(OrderFault::Range(0))
}

// The legs with their numbers in range.
fn legs_in_range(legs: Legs<LegTerms>) -> Result<Legs<TradedLeg>, OrderFault>
    ensures { map_ok listed result ≡ legs_in_range (listed legs) }
{
    legs.try_map(|place, leg| leg.checked(place))
}

fn order_legs(legs: Legs<LegTerms>) -> Result<OrderLegs, OrderFault>
    ensures { map_ok legs_in result ≡ legs_checked (listed legs) }
{
    let legs = legs_in_range(legs)?;
    let all = legs.as_slice();
    if let Some(place) = repeated(all) {
        return Err(OrderFault::Repeated(place));
    }
    if uneven(all) || reducible(all) {
        return Err(OrderFault::Ratios);
    }
    Ok(OrderLegs::new(legs))
}

// The legs of an order, or of a net market that is asked for.
impl TryFrom<LegList> for OrderLegs {
    type Error = OrderFault;

    ghost try_from_gives = { λ l r. (map_ok legs_in r ≡ checked_legs l)
        × ((all : List LegTerms) → l ≡ abridged all → map_ok legs_in r ≡ whole_checked all) };

    fn try_from(legs: LegList) -> Result<OrderLegs, OrderFault> {
        order_legs(legs.two_to_four()?)
    }
}

impl TryFrom<OrderTerms> for CheckedOrder {
    type Error = OrderFault;

    ghost try_from_gives = { λ o r. (map_ok entered_order r ≡ checked_order o)
        × ((all : List LegTerms) → o.legs ≡ abridged all → map_ok entered_order r ≡ whole_order o all) };

    fn try_from(terms: OrderTerms) -> Result<CheckedOrder, OrderFault> {
        let legs = terms.legs.two_to_four()?;
        if !limit_in_range(terms.limit) {
            return Err(OrderFault::Range(0));
        }
        let quantity = checked_quantity(terms.quantity)?;
        Ok(CheckedOrder {
            side: terms.side,
            limit: terms.limit,
            quantity,
            channel: terms.channel,
            legs: order_legs(legs)?,
        })
    }
}
