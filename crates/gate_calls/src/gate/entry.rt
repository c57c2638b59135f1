// New orders: their checks, and where they rest; and cancels.
ghost use Rattle.std.specs.Prelude.{◌≡◌, MatchResult};
ghost use Rattle.strategy.specs.Few.{listed};
ghost use Rattle.orders.specs.Checks.{map_ok};
ghost use Rattle.orders.specs.TurnedTerms.{terms_of};
ghost use Rattle.days.specs.declared.reply.Reply.TheVariants as told;
ghost use Rattle.days.specs.Cancels.{cancelling, cancelled_in};
ghost use Rattle.days.specs.Entries.{limit_verdict, price_fault, placed, numbering, kept_in, entering, entered_in};
ghost use Rattle.days.specs.History.{EnterStep};
ghost use Rattle.gate_calls.specs.Model.{state};
ghost use Rattle.gate_calls.specs.Promises.{Changes, placed_of};

use super::Gate;
use days::reply::Acceptance;
use orders::fault::GateFault;
use orders::order::CheckedOrder;
use orders::quantity::Quantity;
use orders::records::{Channel, OrderTerms};
use orders::turned::TurnedOrder;
use strategy::class::Strategy;
use strategy::leg::Leg;
use strategy::legs::Legs;
use strategy::price::{Buffers, Refusal};

// An order past the checks that need no price, and its legs as options.
#[derive(Clone, Copy)]
pub(super) struct PlacedOrder {
    pub(super) order: CheckedOrder,
    pub(super) options: Legs<Leg>,
}

// The refusal of the limit of an order in turned terms.
fn limit_verdict(order: &TurnedOrder, options: &Legs<Leg>, buffers: Buffers) -> Option<Refusal>
    ensures { result ≡ limit_verdict order.now.limit (listed options.now) (terms_of order.now) buffers }
{
    order.limit.and_then(|limit| {
        order
            .strategy()
            .limit_refusal(options, order.side, i64::from(limit), buffers)
    })
}

// An exempt order skips the checks of Minimum and Maximum but for all bought.
fn price_fault(refusal: Option<Refusal>, channel: Channel) -> Option<GateFault>
    ensures { result ≡ price_fault refusal channel }
{
    match (refusal?, channel) {
        (Refusal::BoughtBelowMinimum, _) => Some(GateFault::BoughtBelowMinimum),
        (Refusal::BelowMinimum, Channel::Plain) => Some(GateFault::BelowMinimum),
        (Refusal::AboveMaximum, Channel::Plain) => Some(GateFault::AboveMaximum),
        (_, Channel::Exempt) => None,
    }
}

impl Gate<'_> {
    // The checks that need no price.
    pub(super) fn place(&self, terms: OrderTerms) -> Result<PlacedOrder, GateFault>
        ensures { map_ok placed_of result ≡ placed (state self.now) terms }
    {
        let order = CheckedOrder::try_from(terms)?;
        if self.is_closed() {
            return Err(GateFault::Phase);
        }
        let options = self.table.resolve(&order.legs.as_legs())?;
        Ok(PlacedOrder { order, options })
    }

    // An exempt order has the number 0 and is not kept.
    fn keep(
        &mut self,
        order: TurnedOrder,
        quantity: Quantity,
        channel: Channel,
    ) -> Result<u16, GateFault>
        ensures answer { result ≡ numbering (state self.old) channel }
        ensures after { MatchResult result (λ n. state self.new ≡ kept_in (state self.old) n (terms_of order) quantity.units channel) (λ _. state self.new ≡ state self.old) }
    {
        match channel {
            Channel::Plain => Ok(self.book.insert(order, quantity)?),
            Channel::Exempt => Ok(0),
        }
    }

    // The checks of the price and of the room, by the strategy that the legs are.
    pub(super) fn admit(
        &mut self,
        placed: &PlacedOrder,
        strategy: Strategy,
    ) -> Result<u16, GateFault>
        ensures answer { result ≡ entering (state self.old) (placed_of placed.now) strategy }
        ensures after { MatchResult result (λ n. state self.new ≡ entered_in (state self.old) n (placed_of placed.now) strategy) (λ _. state self.new ≡ state self.old) }
    {
        let channel = placed.order.channel;
        let order = placed.order.turned(strategy);
        let refusal = limit_verdict(&order, &placed.options, self.in_force());
        if let Some(fault) = price_fault(refusal, channel) {
            return Err(fault);
        }
        self.keep(order, placed.order.quantity, channel)
    }

    pub(super) fn take_in(&mut self, terms: OrderTerms) -> Result<Acceptance, GateFault>
        ensures { EnterStep (state self.old) terms (map_ok told.Order result) (state self.new) }
    {
        let placed = self.place(terms)?;
        let strategy = Strategy::of(&placed.options);
        let number = self.admit(&placed, strategy)?;
        Ok(Acceptance {
            number,
            class: strategy.class,
        })
    }

    // Takes an order out, and answers its open units.
    pub(super) fn withdraw(&mut self, number: i32) -> Result<u16, GateFault>
        ensures answer { result ≡ cancelling (state self.old) number }
        ensures after { Changes result (state self.old) (state self.new) (cancelled_in (state self.old) number) }
    {
        if self.is_closed() {
            return Err(GateFault::Phase);
        }
        let order = self.resting(number).ok_or(GateFault::NotResting)?;
        let _ = self.book.remove(order.number);
        Ok(order.remaining)
    }
}
