// How many units an order is for.
ghost use Rattle.std.specs.Prelude.{◌≡◌, true, is_some, IfSome};
ghost use Rattle.orders.specs.Quantities.{in_range};

// From 1 to 10,000.
#[derive(Clone, Copy)]
pub struct Quantity {
    units: u16,
    ghost range: { in_range units ≡ true },
}

impl Quantity {
    // None where it is out of range.
    pub fn new(units: u16) -> Option<Quantity>
        ensures ranged { is_some result ≡ in_range units }
        ensures value { IfSome result (λ q. q.units ≡ units) }
    {
        if (1..=10_000).contains(&units) {
            Some(Quantity { units })
        } else {
            None
        }
    }

    pub fn units(self) -> u16
        ensures value { result ≡ self.units }
        ensures ranged { in_range result ≡ true }
    {
        self.units
    }
}
