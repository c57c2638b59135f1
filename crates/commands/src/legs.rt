// The legs of an order.
ghost use Rattle.std.specs.Prelude.{List, MatchOption, ◌≢◌, refl};
ghost use Rattle.orders.specs.declared.records.LegTerms.{LegTerms};
ghost use Rattle.commands.specs.Legs.{LegsRead, leg_parts, legs_parts};
ghost use Rattle.commands.specs.Parts.{rest};

use crate::fields::{FromParts, is_done, next_close, next_open};
use lines::cursor::Cursor;
use orders::records::{LegList, LegTerms};
use strategy::leg::Side;

impl FromParts for LegTerms {
    ghost parts = { leg_parts };

    ghost size = { 5 };

    ghost sized = { λ _. refl };

    fn next(from: &mut Cursor) -> Option<Self> {
        next_open(from)?;
        let leg = LegTerms {
            side: Side::next(from)?,
            ratio: i32::next(from)?,
            series: i32::next(from)?,
        };
        next_close(from)?;
        Some(leg)
    }
}

// The legs up to the end of the line.
pub(crate) fn read_legs(from: &mut Cursor) -> Option<LegList>
    ensures { MatchOption result ((all : List LegTerms) → rest from.old ≢ legs_parts all) (λ l. LegsRead l (rest from.old)) }
{
    let mut legs = LegList::new();
    while !is_done(from) {
        legs.push(LegTerms::next(from)?);
    }
    Some(legs)
}
