// What changes the book, by order number.
ghost use Rattle.std.specs.Prelude.{◌≡◌, ◌+◌, ◌-◌, ◌≤◌, IfSome, Some, None, MatchResult};
ghost use Rattle.book.specs.Resting.{put, nothing, entered, reduced, leaving, one, units_of, open_up_to};
ghost use Rattle.book.specs.Books.{resting, count, last, answered};

use super::Book;
use crate::fault::BookFault;
use crate::order::RestingOrder;
use arrayvec::ArrayVec;
use orders::quantity::Quantity;
use orders::turned::TurnedOrder;
use std::cmp::Ordering;

impl Book {
    pub fn new() -> Book
        ensures rests { resting result ≡ nothing }
        ensures count { count result ≡ 0 }
        ensures last { last result ≡ 0 }
    {
        Book {
            orders: ArrayVec::new(),
            given: 0,
        }
    }

    // A new order rests under the next number.
    pub fn insert(&mut self, terms: TurnedOrder, quantity: Quantity) -> Result<u16, BookFault>
        ensures answer { result ≡ answered (count self.old) (last self.old) }
        ensures after { MatchResult result (λ n. (resting self.new ≡ put (resting self.old) n (Some (entered n quantity terms))) × (count self.new ≡ count self.old + 1) × (last self.new ≡ n) × (n ≤ 50000)) (λ _. self.new ≡ self.old) }
    {
        if self.orders.is_full() {
            return Err(BookFault::Full);
        }
        if self.given >= 50_000 {
            return Err(BookFault::NumbersUsedUp);
        }
        let number = self.given + 1;
        let remaining = quantity.units();
        self.orders.push(RestingOrder {
            number,
            remaining,
            terms,
        });
        self.given = number;
        Ok(number)
    }

    // Some units of an order are filled: only its remaining quantity changes, and at 0 it leaves.
    // 0 units change nothing, nor do more than remain, nor a number under which no order rests.
    pub fn reduce(&mut self, number: u16, units: u16)
        ensures rests { resting self.new ≡ put (resting self.old) number (reduced (resting self.old number) units) }
        ensures count { count self.new ≡ count self.old - leaving (resting self.old number) units }
        ensures last { last self.new ≡ last self.old }
    {
        let Some(place) = self.place(number) else {
            return;
        };
        match units.cmp(&self.orders[place].remaining) {
            Ordering::Less => self.orders[place].remaining -= units,
            Ordering::Equal => {
                self.orders.remove(place);
            }
            Ordering::Greater => {}
        }
    }

    // Takes an order out, and answers its open units.
    pub fn remove(&mut self, number: u16) -> Option<u16>
        ensures answer { result ≡ units_of (resting self.old number) }
        ensures small { IfSome result (λ u. u ≤ 10000) }
        ensures rests { resting self.new ≡ put (resting self.old) number None }
        ensures count { count self.new ≡ count self.old - one (resting self.old number) }
        ensures last { last self.new ≡ last self.old }
    {
        let place = self.place(number)?;
        Some(self.orders.remove(place).remaining)
    }

    // Takes every order out, and answers how many units were open.
    pub fn clear(&mut self) -> u32
        ensures answer { result ≡ open_up_to (resting self.old) (last self.old) }
        ensures small { result ≤ 640000 }
        ensures rests { resting self.new ≡ nothing }
        ensures count { count self.new ≡ 0 }
        ensures last { last self.new ≡ last self.old }
    {
        let units = self.total();
        self.orders.clear();
        units
    }
}
