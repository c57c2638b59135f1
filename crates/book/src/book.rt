// At most 64 resting orders, numbered 1, 2, 3 and on as they come.
ghost use Rattle.std.specs.Prelude.{◌≡◌, ◌≤◌, true};
ghost use Rattle.book.specs.Tables.{orderly};

use crate::order::RestingOrder;
use arrayvec::ArrayVec;

mod changes;
mod reads;

// The orders stand in rising number; `given` is the last number given.
#[derive(Drop)]
pub struct Book {
    orders: ArrayVec<RestingOrder, 64>,
    given: u16,
    ghost numbered: { given ≤ 50000 },
    ghost orderly: { orderly 0 given orders.items ≡ true },
}
