// The bells that move the gate from phase to phase.
ghost use Rattle.orders.specs.Words.{bell_name};

use strategy::word::Word;

#[derive(Clone, Copy)]
pub enum Bell {
    Open,
    Halt,
    Resume,
    Close,
}

impl Word for Bell {
    ghost name = { bell_name };

    fn word(self) -> &'static str {
        match self {
            Bell::Open => "open",
            Bell::Halt => "halt",
            Bell::Resume => "resume",
            Bell::Close => "close",
        }
    }
}
