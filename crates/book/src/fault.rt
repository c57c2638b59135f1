// Why the book takes no more orders.
ghost use Rattle.std.specs.Prelude.{◌≡◌};
ghost use Rattle.book.specs.Faults.{gate_fault};

use orders::fault::GateFault;

#[derive(Clone, Copy)]
pub enum BookFault {
    Full,
    NumbersUsedUp,
}

// By hand, so that a contract knows the variant.
impl From<BookFault> for GateFault {
    ghost from_gives = { λ e r. r ≡ gate_fault e };

    fn from(fault: BookFault) -> GateFault {
        match fault {
            BookFault::Full => GateFault::BookFull,
            BookFault::NumbersUsedUp => GateFault::NumbersUsedUp,
        }
    }
}
