// The answers, one for each kind of line, and the refusals.
use orders::bell::Bell;
use orders::fault::Layer;
use orders::outcome::Outcome;
use strategy::class::Class;

#[derive(Clone, Copy)]
pub enum Answer {
    // the number of the series
    Series(u32),
    // the number of the notice
    Notice(u32),
    // the series whose quote was taken in
    Quote(u32),
    // the series whose level was taken in
    Level(u32),
    Order {
        number: u32,
        class: Class,
    },
    // the bell, and the units that it cancelled
    Phase {
        bell: Bell,
        units: u64,
    },
    // the units that were still open
    Cancel(u64),
    // the units filled, and their net price
    Work {
        units: u64,
        net: i64,
    },
    // the lines and the units that went to the tape
    Sweep {
        lines: u32,
        units: u64,
        outcome: Outcome,
    },
    Net {
        bid: Option<i64>,
        offer: Option<i64>,
    },
    // any numbers, since a fault in their place would let callers say less
    Refused {
        number: u32,
        layer: Layer,
        place: u64,
    },
}

pub mod write;
