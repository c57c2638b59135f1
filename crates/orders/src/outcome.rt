// How a sweep ends.
ghost use Rattle.orders.specs.Words.{outcome_name};

use strategy::word::Word;

// With no order left that would fill, or with one left and a full tape.
#[derive(Clone, Copy)]
pub enum Outcome {
    Done,
    Full,
}

impl Word for Outcome {
    ghost name = { outcome_name };

    fn word(self) -> &'static str {
        match self {
            Outcome::Done => "done",
            Outcome::Full => "full",
        }
    }
}
