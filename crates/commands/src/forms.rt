// The commands, each read from the parts of its line.
ghost use Rattle.std.specs.Prelude.{◌≡◌, List, ◌++◌, ℤ, Option as Maybe, MatchOption, ◌≢◌, refl};
ghost use Rattle.orders.specs.declared.records.OrderTerms.{OrderTerms};
ghost use Rattle.commands.specs.Commands.{buffers_parts, limit_parts, series_parts, notice_parts, quote_parts, level_parts, OrderSays, Means};
ghost use Rattle.commands.specs.Parts.{Part, rest};

use crate::command::Command;
use crate::fields::{FromParts, is_done, last};
use crate::legs::read_legs;
use crate::words::{Head, Pricing};
use lines::cursor::Cursor;
use market::quote::QuoteSide;
use market::terms::{LevelTerms, QuoteTerms};
use orders::records::{BufferTerms, Channel, NoticeTerms, OrderTerms, SeriesTerms};
use strategy::leg::{Kind, Side};

impl FromParts for SeriesTerms {
    ghost parts = { series_parts };

    ghost size = { 4 };

    ghost sized = { λ _. refl };

    fn next(from: &mut Cursor) -> Option<Self> {
        Some(SeriesTerms {
            underlying: i32::next(from)?,
            kind: Kind::next(from)?,
            strike: i32::next(from)?,
            expiry: i32::next(from)?,
        })
    }
}

impl FromParts for BufferTerms {
    ghost parts = { buffers_parts };

    ghost size = { 3 };

    ghost sized = { λ _. refl };

    fn next(from: &mut Cursor) -> Option<Self> {
        Some(BufferTerms {
            minimum: i32::next(from)?,
            absolute: i32::next(from)?,
            percentage: i32::next(from)?,
        })
    }
}

impl FromParts for NoticeTerms {
    ghost parts = { notice_parts };

    ghost size = { 9 };

    ghost sized = { λ _. refl };

    fn next(from: &mut Cursor) -> Option<Self> {
        Some(NoticeTerms {
            vertical: BufferTerms::next(from)?,
            butterfly: BufferTerms::next(from)?,
            boxes: BufferTerms::next(from)?,
        })
    }
}

impl FromParts for QuoteTerms {
    ghost parts = { quote_parts };

    ghost size = { 5 };

    ghost sized = { λ _. refl };

    fn next(from: &mut Cursor) -> Option<Self> {
        Some(QuoteTerms {
            series: i32::next(from)?,
            bid_price: i32::next(from)?,
            bid_size: i32::next(from)?,
            offer_price: i32::next(from)?,
            offer_size: i32::next(from)?,
        })
    }
}

impl FromParts for LevelTerms {
    ghost parts = { level_parts };

    ghost size = { 4 };

    ghost sized = { λ _. refl };

    fn next(from: &mut Cursor) -> Option<Self> {
        Some(LevelTerms {
            series: i32::next(from)?,
            side: QuoteSide::next(from)?,
            price: i32::next(from)?,
            size: i32::next(from)?,
        })
    }
}

// A limit price, or none for a market order.
fn next_limit(from: &mut Cursor) -> Option<Option<i32>>
    ensures { MatchOption result ((x : Maybe ℤ) (more : List Part) → rest from.old ≢ limit_parts x ++ more) (λ x. rest from.old ≡ limit_parts x ++ rest from.new) }
{
    match Pricing::next(from)? {
        Pricing::Market => Some(None),
        Pricing::Limit => Some(Some(i32::next(from)?)),
    }
}

fn read_order(from: &mut Cursor) -> Option<OrderTerms>
    ensures { MatchOption result ((x : OrderTerms) → OrderSays x (rest from.old) → ⊥) (λ x. OrderSays x (rest from.old)) }
{
    Some(OrderTerms {
        side: Side::next(from)?,
        limit: next_limit(from)?,
        quantity: i32::next(from)?,
        channel: Channel::next(from)?,
        legs: read_legs(from)?,
    })
}

// The command, or `None` where the parts say none.
pub(crate) fn read_command(from: &mut Cursor) -> Option<Command>
    ensures { Means (rest from.old) result }
{
    match Head::next(from)? {
        Head::Series => Some(Command::Series(last(from)?)),
        Head::Notice => Some(Command::Notice(last(from)?)),
        Head::Quote => Some(Command::Quote(last(from)?)),
        Head::Level => Some(Command::Level(last(from)?)),
        Head::Enter => Some(Command::Enter(read_order(from)?)),
        Head::Phase => Some(Command::Phase(last(from)?)),
        Head::Cancel => Some(Command::Cancel(last(from)?)),
        Head::Work => Some(Command::Work(last(from)?)),
        Head::Sweep => is_done(from).then_some(Command::Sweep),
        Head::Net => Some(Command::Net(read_legs(from)?)),
    }
}
