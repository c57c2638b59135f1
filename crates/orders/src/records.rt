// Records with raw numbers, whose ranges are not checked yet.
ghost use Rattle.std.specs.Prelude.{◌≡◌, List, [], ◌∷◌, ◌++◌, Ok};
ghost use Rattle.strategy.specs.Few.{listed};
ghost use Rattle.orders.specs.declared.fault.OrderFault.TheVariants.{LegCount};
ghost use Rattle.orders.specs.declared.records.LegTerms.{LegTerms};
ghost use Rattle.orders.specs.Checks.{check, map_ok};
ghost use Rattle.orders.specs.LegLists.{abridged, is_few, legs_of};

use crate::fault::OrderFault;
use strategy::leg::{Kind, Side};
use strategy::legs::Legs;

#[derive(Clone, Copy)]
pub struct SeriesTerms {
    pub underlying: i32,
    pub kind: Kind,
    pub strike: i32,
    pub expiry: i32,
}

// The three buffers of one class.
#[derive(Clone, Copy)]
pub struct BufferTerms {
    pub minimum: i32,
    pub absolute: i32,
    pub percentage: i32,
}

#[derive(Clone, Copy)]
pub struct NoticeTerms {
    pub vertical: BufferTerms,
    pub butterfly: BufferTerms,
    pub boxes: BufferTerms,
}

#[derive(Clone, Copy)]
pub struct LegTerms {
    pub side: Side,
    pub ratio: i32,
    pub series: i32,
}

// Any number of legs; of more than four only that they are too many.
#[derive(Clone, Copy)]
pub enum LegList {
    Empty,
    One(LegTerms),
    Few(Legs<LegTerms>),
    Many,
}

#[derive(Clone, Copy)]
pub enum Channel {
    Plain,
    // facilitation, solicited order, price improvement, customer cross
    Exempt,
}

// An order without a limit is a market order.
#[derive(Clone, Copy)]
pub struct OrderTerms {
    pub side: Side,
    pub limit: Option<i32>,
    pub quantity: i32,
    pub channel: Channel,
    pub legs: LegList,
}

// The legs and one more. The borrow checker takes no array pattern in a variant.
fn one_more(legs: &Legs<LegTerms>, leg: LegTerms) -> LegList
    ensures { result ≡ abridged (listed legs.now ++ leg ∷ []) }
{
    match legs.as_slice() {
        [a, b] => LegList::Few(Legs::Three([*a, *b, leg])),
        [a, b, c] => LegList::Few(Legs::Four([*a, *b, *c, leg])),
        _ => LegList::Many,
    }
}

impl LegList {
    pub fn new() -> Self
        ensures { result ≡ abridged [] }
    {
        Self::Empty
    }

    // One leg more, behind the others.
    pub fn push(&mut self, leg: LegTerms)
        ensures { (all : List LegTerms) → self.old ≡ abridged all → self.new ≡ abridged (all ++ leg ∷ []) }
    {
        *self = match *self {
            LegList::Empty => LegList::One(leg),
            LegList::One(a) => LegList::Few(Legs::Two([a, leg])),
            LegList::Few(legs) => one_more(&legs, leg),
            LegList::Many => LegList::Many,
        };
    }

    // The legs of a list that has two to four.
    pub(crate) fn two_to_four(self) -> Result<Legs<LegTerms>, OrderFault>
        ensures { map_ok listed result ≡ check (is_few self) LegCount (Ok (legs_of self)) }
    {
        match self {
            LegList::Few(legs) => Ok(legs),
            _ => Err(OrderFault::LegCount),
        }
    }
}
