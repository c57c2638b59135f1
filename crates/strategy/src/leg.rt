// Option series, and the legs of a strategy.
ghost use Rattle.std.specs.Prelude.{◌≡◌};
ghost use Rattle.strategy.specs.Legs.{option, opposite, turned_side, flipped};

#[derive(Clone, Copy, PartialEq, Eq, Default)]
pub enum Kind {
    #[default]
    Call,
    Put,
}

#[derive(Clone, Copy, PartialEq, Eq)]
pub enum Side {
    Buy,
    Sell,
}

// An option series. The strike is in cents, the expiry is a day number.
#[derive(Clone, Copy, PartialEq, Eq, Default)]
pub struct Series {
    pub underlying: u16,
    pub kind: Kind,
    pub strike: u32,
    pub expiry: u16,
}

// So many contracts of a series for each unit of the strategy.
#[derive(Clone, Copy, PartialEq, Eq)]
pub struct Leg {
    pub side: Side,
    pub ratio: u8,
    pub series: Series,
}

impl Side {
    // Its own match, as QuoteSide has: one trait for both would hold the same two.
    fn opposite(self) -> Side
        ensures { result ≡ opposite self }
    {
        match self {
            Side::Buy => Side::Sell,
            Side::Sell => Side::Buy,
        }
    }

    // The side in turned terms, or as it is.
    pub fn turned(self, turned: bool) -> Side
        ensures { result ≡ turned_side turned self }
    {
        if turned { self.opposite() } else { self }
    }
}

impl Series {
    // The series of a kind and a strike, else alike.
    pub(crate) fn option(self, kind: Kind, strike: u32) -> Series
        ensures { result ≡ option self.underlying kind strike self.expiry }
    {
        Series {
            kind,
            strike,
            ..self
        }
    }

    // The series of an expiry, else alike.
    pub(crate) fn dated(self, expiry: u16) -> Series
        ensures { result ≡ option self.underlying self.kind self.strike expiry }
    {
        Series { expiry, ..self }
    }
}

impl Leg {
    pub(crate) fn new(side: Side, ratio: u8, series: Series) -> Leg
        ensures { result ≡ record { side = side; ratio = ratio; series = series } }
    {
        Leg {
            side,
            ratio,
            series,
        }
    }

    // The same leg on the other side.
    pub(crate) fn flipped(self) -> Leg
        ensures { result ≡ flipped self }
    {
        Leg {
            side: self.side.opposite(),
            ..self
        }
    }
}
