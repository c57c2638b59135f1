// The ranges of the numbers that a caller hands in.
ghost use Rattle.std.specs.Prelude.{◌≡◌, ◌≤◌, pos, Ok, Err};
ghost use Rattle.orders.specs.declared.fault.OrderFault.TheVariants.{Range};
ghost use Rattle.orders.specs.Checks.{check, between, amount};
ghost use Rattle.orders.specs.Ranges.{checked_series, buffer_in_range, buffer_of, checked_notice, leg_in_range, traded_leg};

use crate::fault::OrderFault;
use crate::records::{BufferTerms, LegTerms, NoticeTerms, SeriesTerms};
use market::leg::TradedLeg;
use strategy::leg::Series;
use strategy::price::{Buffer, Buffers};

// A number from `low` to `high`, at a leg or at place 0.
pub(crate) fn in_range(n: i32, low: u32, high: u32, place: u8) -> Result<u32, OrderFault>
    ensures value { result ≡ check (between (pos low) (pos high) n) (Range place) (Ok (amount n)) }
    ensures top { elim result [ Ok v ↦ v ≤ high | Err _ ↦ Unit {0} ] }
{
    u32::try_from(n)
        .ok()
        .filter(|n| (low..=high).contains(n))
        .ok_or(OrderFault::Range(place))
}

// The casts below are of numbers that `in_range` let through: a `try_from` would refuse nothing.
impl TryFrom<SeriesTerms> for Series {
    type Error = OrderFault;

    ghost try_from_gives = { λ t r. r ≡ checked_series t };

    fn try_from(terms: SeriesTerms) -> Result<Series, OrderFault> {
        Ok(Series {
            underlying: in_range(terms.underlying, 1, 9_999, 0)? as u16,
            kind: terms.kind,
            strike: in_range(terms.strike, 1, 10_000_000, 0)?,
            expiry: in_range(terms.expiry, 1, 65_535, 0)? as u16,
        })
    }
}

// The most that a notice may set for verticals.
const MOST_OF_VERTICALS: Buffer = Buffer {
    minimum: 100,
    absolute: 100,
    percentage: 1_000,
};

// The most that a notice may set for butterflies and for boxes.
const MOST: Buffer = Buffer {
    minimum: 1_000,
    absolute: 1_000,
    percentage: 10_000,
};

impl BufferTerms {
    // At most so much of each. No `TryFrom`: it takes a bound beside the record, as a leg takes its place.
    fn checked(self, most: Buffer) -> Result<Buffer, OrderFault>
        ensures { result ≡ check (buffer_in_range most.minimum most.absolute most.percentage self) (Range 0) (Ok (buffer_of self)) }
    {
        Ok(Buffer {
            minimum: in_range(self.minimum, 0, u32::from(most.minimum), 0)? as u16,
            absolute: in_range(self.absolute, 0, u32::from(most.absolute), 0)? as u16,
            percentage: in_range(self.percentage, 0, u32::from(most.percentage), 0)? as u16,
        })
    }
}

impl TryFrom<NoticeTerms> for Buffers {
    type Error = OrderFault;

    ghost try_from_gives = { λ t r. r ≡ checked_notice t };

    fn try_from(terms: NoticeTerms) -> Result<Buffers, OrderFault> {
        Ok(Buffers {
            vertical: terms.vertical.checked(MOST_OF_VERTICALS)?,
            butterfly: terms.butterfly.checked(MOST)?,
            boxes: terms.boxes.checked(MOST)?,
        })
    }
}

impl LegTerms {
    // The leg at a place, which a refusal names; its series by number.
    pub(crate) fn checked(self, place: u8) -> Result<TradedLeg, OrderFault>
        ensures { result ≡ check (leg_in_range self) (Range place) (Ok (traded_leg self)) }
    {
        Ok(TradedLeg {
            side: self.side,
            ratio: in_range(self.ratio, 1, 12, place)? as u8,
            series: in_range(self.series, 0, 255, place)? as u8,
        })
    }
}
