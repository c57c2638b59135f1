// A line as the record that it stands for.
ghost use Rattle.std.specs.Prelude.{◌≡◌};
ghost use Rattle.commands.specs.Feeds.{takes};

use market::terms::{LevelTerms, QuoteTerms};
use orders::bell::Bell;
use orders::records::{LegList, NoticeTerms, OrderTerms, SeriesTerms};

#[derive(Clone, Copy)]
pub enum Command {
    Series(SeriesTerms),
    Notice(NoticeTerms),
    Quote(QuoteTerms),
    Level(LevelTerms),
    Enter(OrderTerms),
    Phase(Bell),
    Cancel(i32),
    Work(i32),
    Sweep,
    Net(LegList),
}

// Which lines of a market are forms: quotes are those of a board, levels those of a ladder. Two flags, since a caller may take both or neither.
#[derive(Clone, Copy)]
pub struct Feed {
    pub quotes: bool,
    pub levels: bool,
}

impl Feed {
    // The lines of every market.
    pub const EVERY: Feed = Feed {
        quotes: true,
        levels: true,
    };

    pub fn takes(self, command: &Command) -> bool
        ensures { result ≡ takes self command.now }
    {
        match command {
            Command::Quote(_) => self.quotes,
            Command::Level(_) => self.levels,
            _ => true,
        }
    }
}
