// Markets that take in lines of their own.
ghost use Rattle.std.specs.Prelude.{◌≡◌, Option, Result};
ghost use Rattle.answers.specs.declared.answer.Answer.{Answer};
ghost use Rattle.commands.specs.declared.command.Command.{Command};
ghost use Rattle.market.specs.declared.quote.MarketFault.{MarketFault};
ghost use Rattle.market.specs.Levels.{Levels};
ghost use Rattle.orders.specs.Checks.{amount};
ghost use Rattle.session.specs.Venues.{board_answer, board_after, ladder_answer, ladder_after};

use answers::answer::Answer;
use commands::command::Command;
use market::quote::MarketFault;
use market::trading::Market;
use venues::board::Board;
use venues::ladder::Ladder;

pub trait Venue: Market {
    // what a line answers, or none where it is no form of this market
    ghost updated: { Self → Command → Option (Result Answer MarketFault) };

    // the levels that it leaves
    ghost after: { Self → Command → Levels };

    // Takes in a line of this market.
    fn update(&mut self, command: Command) -> Option<Result<Answer, MarketFault>>
        ensures answer { result ≡ updated self.old command }
        ensures after { Self.Market.levels self.new ≡ after self.old command };
}

// The number of a series that a market took in, as an answer has it.
fn series_number(series: i32) -> u32
    ensures { result ≡ amount series }
{
    u32::try_from(series).unwrap_or(0)
}

// A board takes in quotes.
impl Venue for Board {
    ghost updated = { λ _ c. board_answer c };

    ghost after = { board_after };

    fn update(&mut self, command: Command) -> Option<Result<Answer, MarketFault>> {
        let Command::Quote(terms) = command else {
            return None;
        };
        let answer = self
            .quote(terms)
            .map(|()| Answer::Quote(series_number(terms.series)));
        Some(answer)
    }
}

// A ladder takes in levels.
impl Venue for Ladder {
    ghost updated = { ladder_answer };

    ghost after = { ladder_after };

    fn update(&mut self, command: Command) -> Option<Result<Answer, MarketFault>> {
        let Command::Level(terms) = command else {
            return None;
        };
        let answer = self
            .level(terms)
            .map(|()| Answer::Level(series_number(terms.series)));
        Some(answer)
    }
}
