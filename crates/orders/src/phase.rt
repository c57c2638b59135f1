// The phases of a day, which the bells move from one to the next.
ghost use Rattle.std.specs.Prelude.{◌≡◌};
ghost use Rattle.orders.specs.Phases.{after, rung, or_same};

use crate::bell::Bell;
use crate::fault::GateFault;

#[derive(Clone, Copy, PartialEq, Eq)]
pub enum Phase {
    Pre,
    Open,
    Halt,
    Closed,
}

impl Phase {
    // Moves to the phase that the bell leads to. A bell that does not act on this phase changes nothing.
    pub fn ring(&mut self, bell: Bell) -> Result<(), GateFault>
        ensures answer { result ≡ rung (after self.old bell) }
        ensures phase { self.new ≡ or_same (after self.old bell) self.old }
    {
        *self = match (*self, bell) {
            (Phase::Pre, Bell::Open) | (Phase::Halt, Bell::Resume) => Phase::Open,
            (Phase::Open, Bell::Halt) => Phase::Halt,
            (Phase::Pre | Phase::Open | Phase::Halt, Bell::Close) => Phase::Closed,
            _ => return Err(GateFault::Phase),
        };
        Ok(())
    }
}
