// Why a line is refused: by the line layer, or further down. A fault met lower down is carried whole in the upper one.
ghost use Rattle.std.specs.Prelude.{◌≡◌};
ghost use Rattle.orders.specs.declared.fault.GateFault.TheVariants as gate;
ghost use Rattle.session.specs.declared.fault.SessionFault.TheVariants as session;
ghost use Rattle.session.specs.Refusals.{fault_answer};

use answers::answer::Answer;
use lines::fault::LineFault;
use market::quote::MarketFault;
use orders::fault::GateFault;

#[derive(Clone, Copy)]
pub enum SessionFault {
    Line(LineFault),
    Gate(GateFault),
}

// This and the next two by hand, so that a contract knows the variant.
impl From<LineFault> for SessionFault {
    ghost from_gives = { λ e r. r ≡ session.Line e };

    fn from(fault: LineFault) -> Self {
        Self::Line(fault)
    }
}

impl From<GateFault> for SessionFault {
    ghost from_gives = { λ e r. r ≡ session.Gate e };

    fn from(fault: GateFault) -> Self {
        Self::Gate(fault)
    }
}

impl From<MarketFault> for SessionFault {
    ghost from_gives = { λ e r. r ≡ session.Gate (gate.Market e) };

    fn from(fault: MarketFault) -> Self {
        Self::Gate(GateFault::Market(fault))
    }
}

// How a fault is answered.
impl From<SessionFault> for Answer {
    ghost from_gives = { λ e r. r ≡ fault_answer e };

    fn from(fault: SessionFault) -> Self {
        match fault {
            SessionFault::Line(fault) => fault.into(),
            SessionFault::Gate(fault) => Answer::Refused {
                number: u32::from(fault.number()),
                layer: fault.layer(),
                place: u64::from(fault.place()),
            },
        }
    }
}
