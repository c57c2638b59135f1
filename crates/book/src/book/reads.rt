// What the book holds, by order number.
ghost use Rattle.std.specs.Prelude.{◌≡◌, ℕ, ◌+◌, ◌*◌, ◌<◌, ◌≤◌, ◌==◌, ◌^◌, true, length, IfSome, None, sum_by, position};
ghost use Rattle.orders.specs.Quantities.{in_range};
ghost use Rattle.book.specs.Resting.{rest, open_up_to, resting_up_to, NextIs, NextOrderIs};
ghost use Rattle.book.specs.Books.{resting, count, last, in_use};

use super::Book;
use crate::order::RestingOrder;

impl Book {
    // How many orders rest.
    pub fn len(&self) -> usize
        ensures value { result ≡ count self.now }
        ensures counted { result ≡ resting_up_to (resting self.now) (last self.now) }
        ensures few { result ≤ 64 }
    {
        self.orders.len()
    }

    // The last number given, at first 0: no order rests above it.
    pub fn last(&self) -> u16
        ensures value { result ≡ last self.now }
        ensures none { (k : ℕ) → result < k → resting self.now k ≡ None }
        ensures few { result ≤ 50000 }
    {
        self.given
    }

    // The place of an order.
    pub(super) fn place(&self, number: u16) -> Option<usize>
        ensures { result ≡ position (λ o. o.number == number) (in_use self.now) }
    {
        self.orders.iter().position(|order| order.number == number)
    }

    // The resting order of this number.
    pub fn find(&self, number: u16) -> Option<RestingOrder>
        ensures is { rest result ≡ resting self.now number }
        ensures sound { IfSome result (λ o. (o.number ≡ number) × (in_range o.remaining ≡ true)) }
    {
        let place = self.place(number)?;
        Some(self.orders[place])
    }

    // The lowest number above this one under which an order rests.
    pub fn next_above(&self, number: u16) -> Option<u16>
        ensures next { NextIs (resting self.now) number result }
        ensures small { IfSome result (λ k. k ≤ 50000) }
    {
        Some(self.order_above(number)?.number)
    }

    // The resting order with the lowest number above this one.
    pub fn order_above(&self, number: u16) -> Option<RestingOrder>
        ensures next { NextOrderIs (resting self.now) number (rest result) }
        ensures small { IfSome result (λ o. o.number ≤ 50000) }
    {
        let place = self.orders.partition_point(|order| order.number <= number);
        self.orders.get(place).copied()
    }

    // The open units of all orders.
    pub fn total(&self) -> u32
        ensures value { result ≡ open_up_to (resting self.now) (last self.now) }
        ensures small { result ≤ 640000 }
    {
        self.orders
            .iter()
            .map(|order| u32::from(order.remaining))
            .sum()
    }
}
