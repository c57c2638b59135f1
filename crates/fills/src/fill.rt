// A fill of an order, in turned terms.
use strategy::legs::Legs;

// The ratio has a minus if the leg is sold, as the tape says it.
#[derive(Clone, Copy)]
pub struct LegFill {
    pub series: u8,
    pub ratio: i8,
    pub price: u16,
}

// The net price and the legs are those of one unit.
#[derive(Clone, Copy)]
pub struct Fill {
    pub units: u16,
    pub net: i32,
    pub legs: Legs<LegFill>,
}
