// The words that can stand at a place of a command, as enums.
ghost use Rattle.std.specs.Prelude.{◌≡◌, ℕ, List, MatchOption, ◌≢◌};
ghost use Rattle.orders.specs.Words.{bell_name};
ghost use Rattle.commands.specs.Words.{head_name, side_name, quote_side_name, kind_name, channel_name, pricing_name};

use market::quote::QuoteSide;
use orders::bell::Bell;
use orders::records::Channel;
use strategy::leg::{Kind, Side};

// A closed set of words. std's `FromStr` cannot be had by the types of other crates, and names no word.
pub trait Keyword: Copy {
    ghost name: { Self → List ℕ };

    fn from_text(text: &str) -> Option<Self>
        ensures { MatchOption result ((k : Self) → text.now ≢ name k) (λ k. text.now ≡ name k) };
}

// The word that begins a command.
#[derive(Clone, Copy)]
pub enum Head {
    Series,
    Notice,
    Quote,
    Level,
    Enter,
    Phase,
    Cancel,
    Work,
    Sweep,
    Net,
}

// What stands before an order's price, or in its place.
#[derive(Clone, Copy)]
pub enum Pricing {
    Market,
    Limit,
}

impl Keyword for Head {
    ghost name = { head_name };

    fn from_text(text: &str) -> Option<Head> {
        match text {
            "series" => Some(Head::Series),
            "notice" => Some(Head::Notice),
            "quote" => Some(Head::Quote),
            "level" => Some(Head::Level),
            "enter" => Some(Head::Enter),
            "phase" => Some(Head::Phase),
            "cancel" => Some(Head::Cancel),
            "work" => Some(Head::Work),
            "sweep" => Some(Head::Sweep),
            "net" => Some(Head::Net),
            _ => None,
        }
    }
}

impl Keyword for Side {
    ghost name = { side_name };

    fn from_text(text: &str) -> Option<Side> {
        match text {
            "buy" => Some(Side::Buy),
            "sell" => Some(Side::Sell),
            _ => None,
        }
    }
}

impl Keyword for QuoteSide {
    ghost name = { quote_side_name };

    fn from_text(text: &str) -> Option<QuoteSide> {
        match text {
            "bid" => Some(QuoteSide::Bid),
            "offer" => Some(QuoteSide::Offer),
            _ => None,
        }
    }
}

impl Keyword for Kind {
    ghost name = { kind_name };

    fn from_text(text: &str) -> Option<Kind> {
        match text {
            "call" => Some(Kind::Call),
            "put" => Some(Kind::Put),
            _ => None,
        }
    }
}

impl Keyword for Channel {
    ghost name = { channel_name };

    fn from_text(text: &str) -> Option<Channel> {
        match text {
            "plain" => Some(Channel::Plain),
            "exempt" => Some(Channel::Exempt),
            _ => None,
        }
    }
}

impl Keyword for Bell {
    ghost name = { bell_name };

    fn from_text(text: &str) -> Option<Bell> {
        match text {
            "open" => Some(Bell::Open),
            "halt" => Some(Bell::Halt),
            "resume" => Some(Bell::Resume),
            "close" => Some(Bell::Close),
            _ => None,
        }
    }
}

impl Keyword for Pricing {
    ghost name = { pricing_name };

    fn from_text(text: &str) -> Option<Pricing> {
        match text {
            "market" => Some(Pricing::Market),
            "limit" => Some(Pricing::Limit),
            _ => None,
        }
    }
}
