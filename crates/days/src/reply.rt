// What the gate answers.
ghost use Rattle.std.specs.Prelude.{◌≡◌};

use fills::fill::Fill;
use orders::bell::Bell;
use orders::outcome::Outcome;
use strategy::class::Class;

// The number under which an order was accepted, 0 for an exempt one, as its answer says it, and its class.
#[derive(Clone, Copy)]
pub struct Acceptance {
    pub number: u16,
    pub class: Class,
}

// The units that work filled, and their net price.
#[derive(Clone, Copy)]
pub struct Execution {
    pub units: u16,
    pub net: i32,
}

impl From<Fill> for Execution {
    ghost from_gives = { λ f r. r ≡ record { units = f.units; net = f.net } };

    fn from(fill: Fill) -> Self {
        Execution {
            units: fill.units,
            net: fill.net,
        }
    }
}

// The lines and the units that a sweep added to the tape, and how it ended.
#[derive(Clone, Copy)]
pub struct Tally {
    pub lines: u16,
    pub units: u32,
    pub outcome: Outcome,
}

// What a call answers that is not refused.
#[derive(Clone, Copy)]
pub enum Reply {
    // the number of the series
    Series(u16),
    // the number of the notice
    Notice(u8),
    // the bell, and the units that it cancelled
    Phase(Bell, u32),
    Order(Acceptance),
    // the units that were open
    Cancel(u16),
    Work(Execution),
    Sweep(Tally),
}
