// The lines of the tape.
use fills::fill::LegFill;
use strategy::class::Class;
use strategy::leg::Side;
use strategy::legs::Legs;

// A fill of some units of an order, in turned terms: the net price and the legs are those of one unit.
#[derive(Clone, Copy)]
pub struct TapeLine {
    pub order: u16,
    pub class: Class,
    pub side: Side,
    pub units: u16,
    pub net: i32,
    // the number of the notice in force, 0 for the zeros before the first
    pub notice: usize,
    pub legs: Legs<LegFill>,
}
