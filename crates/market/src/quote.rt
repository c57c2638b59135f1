// The two sides of a market, its levels, and its refusals.
ghost use Rattle.std.specs.Prelude.{◌≡◌};
ghost use Rattle.market.specs.Faults.{fault_number};
ghost use Rattle.market.specs.Sides.{opposite, side_of, with_side};

#[derive(Clone, Copy)]
pub enum QuoteSide {
    Bid,
    Offer,
}

impl QuoteSide {
    // Its own match, as strategy's Side has: one trait for both would hold the same two.
    pub fn opposite(self) -> QuoteSide
        ensures { result ≡ opposite self }
    {
        match self {
            QuoteSide::Bid => QuoteSide::Offer,
            QuoteSide::Offer => QuoteSide::Bid,
        }
    }
}

// A price in cents and how many contracts stand there.
#[derive(Clone, Copy, Default)]
pub struct Level {
    pub price: u16,
    pub size: u32,
}

// A bid and an offer of one kind, either possibly absent.
#[derive(Clone, Copy)]
pub struct TwoSided<T> {
    pub bid: Option<T>,
    pub offer: Option<T>,
}

impl<T: Copy> TwoSided<T> {
    pub fn side(&self, side: QuoteSide) -> Option<T>
        ensures { result ≡ side_of self.now side }
    {
        match side {
            QuoteSide::Bid => self.bid,
            QuoteSide::Offer => self.offer,
        }
    }

    // The same with one side replaced.
    pub fn with(self, side: QuoteSide, value: Option<T>) -> Self
        ensures { result ≡ with_side self side value }
    {
        match side {
            QuoteSide::Bid => TwoSided { bid: value, ..self },
            QuoteSide::Offer => TwoSided {
                offer: value,
                ..self
            },
        }
    }
}

// Why a market refuses.
#[derive(Clone, Copy)]
pub enum MarketFault {
    // a price or a size outside its range
    Range,
    // no such series in the market
    Series,
    // a quote whose bid is at or above its offer
    Crossed,
    // a level that would meet the other side
    Meets,
    // one level more than a side can show
    NinthLevel,
    // contracts that the first level does not have, or none at all
    Take,
}

impl MarketFault {
    // The number in a refusal, which is one of the gate's stated forms.
    pub fn number(self) -> u8
        ensures { result ≡ fault_number self }
    {
        match self {
            MarketFault::Range => 40,
            MarketFault::Series => 41,
            MarketFault::Crossed => 42,
            MarketFault::Meets => 43,
            MarketFault::NinthLevel => 44,
            MarketFault::Take => 45,
        }
    }
}
