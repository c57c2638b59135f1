// The strategies of the sheet, with their quotes, the buffers in force and the prices to judge. All money is in cents.
use strategy::leg::{Kind, Leg, Series, Side};
use strategy::legs::Legs;
use strategy::price::{Buffer, Buffers};

// A price to judge: a limit, or what the market would give. No Option: the sheet is read, and `None` would not say so.
#[derive(Clone, Copy)]
pub enum Price {
    Limit(i32),
    AtMarket,
}

// A leg, its series on the board, and the bid and the offer word of its quote there.
#[derive(Clone, Copy)]
pub struct QuotedLeg {
    pub leg: Leg,
    pub series: u8,
    pub bid: i32,
    pub offer: i32,
}

#[derive(Clone, Copy)]
pub struct Row {
    pub title: &'static str,
    pub quoted: Legs<QuotedLeg>,
    pub buffers: Buffers,
    pub prices: &'static [(Side, Price)],
}

impl Row {
    pub(crate) fn legs(&self) -> Legs<Leg> {
        self.quoted.map(|quoted: QuotedLeg| quoted.leg)
    }
}

// The feed's own words for no price.
const NO_BID: i32 = 0;

const NO_OFFER: i32 = 65535;

pub fn option(kind: Kind, strike: u32) -> Series {
    Series {
        underlying: 1,
        kind,
        strike,
        expiry: 26,
    }
}

// This and `sell` are the words of the sheet and of the tests; another crate's leg has no maker of its own to call.
pub fn buy(ratio: u8, series: Series) -> Leg {
    Leg {
        side: Side::Buy,
        ratio,
        series,
    }
}

pub fn sell(ratio: u8, series: Series) -> Leg {
    Leg {
        side: Side::Sell,
        ratio,
        series,
    }
}

// A leg with its quote.
fn quoted(series: u8, leg: Leg, bid: i32, offer: i32) -> QuotedLeg {
    QuotedLeg {
        leg,
        series,
        bid,
        offer,
    }
}

// Buffers for verticals, and none for the other classes.
fn for_verticals(minimum: u16, absolute: u16, percentage: u16) -> Buffers {
    Buffers {
        vertical: Buffer {
            minimum,
            absolute,
            percentage,
        },
        ..Buffers::default()
    }
}

fn box_spread() -> Row {
    Row {
        title: "Box",
        quoted: Legs::Four([
            quoted(0, buy(1, option(Kind::Call, 696000)), 3080, 3405),
            quoted(1, sell(1, option(Kind::Put, 696000)), 3350, 3600),
            quoted(2, sell(1, option(Kind::Call, 697000)), 2750, 2900),
            quoted(3, buy(1, option(Kind::Put, 697000)), 3640, 3705),
        ]),
        buffers: for_verticals(0, 0, 0),
        prices: &[
            (Side::Buy, Price::Limit(1000)),
            (Side::Buy, Price::Limit(1010)),
        ],
    }
}

fn vertical() -> Row {
    Row {
        title: "Vertical, Maximum Value Buffer the lesser of 10 cents and 5 percent",
        quoted: Legs::Two([
            quoted(0, buy(1, option(Kind::Call, 2000)), 1055, 1070),
            quoted(1, sell(1, option(Kind::Call, 2500)), 535, 550),
        ]),
        buffers: for_verticals(10, 10, 500),
        prices: &[
            (Side::Buy, Price::Limit(510)),
            (Side::Buy, Price::Limit(511)),
            (Side::Buy, Price::AtMarket),
        ],
    }
}

fn vertical_flipped() -> Row {
    Row {
        title: "The same vertical with every leg flipped",
        quoted: Legs::Two([
            quoted(0, sell(1, option(Kind::Call, 2000)), 1055, 1070),
            quoted(1, buy(1, option(Kind::Call, 2500)), 535, 550),
        ]),
        prices: &[
            (Side::Sell, Price::Limit(-510)),
            (Side::Sell, Price::Limit(-511)),
            (Side::Sell, Price::AtMarket),
        ],
        ..vertical()
    }
}

fn vertical_at_a_credit() -> Row {
    Row {
        title: "Vertical at a credit, Minimum Value Buffer 10 cents",
        quoted: Legs::Two([
            quoted(0, buy(1, option(Kind::Call, 3000)), 100, 120),
            quoted(1, sell(1, option(Kind::Call, 3100)), 95, 115),
        ]),
        buffers: for_verticals(10, 0, 0),
        prices: &[
            (Side::Sell, Price::Limit(-10)),
            (Side::Sell, Price::Limit(-11)),
            (Side::Sell, Price::AtMarket),
        ],
    }
}

fn vertical_of_width_250() -> Row {
    Row {
        title: "Vertical of width 250, Maximum Value Buffer the lesser of 10 cents and 3.33 percent",
        quoted: Legs::Two([
            quoted(0, buy(1, option(Kind::Put, 2250)), NO_BID, NO_OFFER),
            quoted(1, sell(1, option(Kind::Put, 2000)), NO_BID, NO_OFFER),
        ]),
        buffers: for_verticals(0, 10, 333),
        prices: &[
            (Side::Buy, Price::Limit(258)),
            (Side::Buy, Price::Limit(259)),
        ],
    }
}

fn all_bought() -> Row {
    Row {
        title: "All bought",
        quoted: Legs::Two([
            quoted(0, buy(2, option(Kind::Call, 2000)), NO_BID, NO_OFFER),
            quoted(1, buy(1, option(Kind::Put, 2000)), NO_BID, NO_OFFER),
        ]),
        buffers: for_verticals(0, 0, 0),
        prices: &[(Side::Buy, Price::Limit(3)), (Side::Buy, Price::Limit(2))],
    }
}

fn calls_one_two_one(high: u32, first_offer: i32) -> Legs<QuotedLeg> {
    Legs::Three([
        quoted(0, buy(1, option(Kind::Call, 10000)), 900, first_offer),
        quoted(1, sell(2, option(Kind::Call, 10500)), 510, 530),
        quoted(2, buy(1, option(Kind::Call, high)), 240, 250),
    ])
}

fn butterfly() -> Row {
    Row {
        title: "Butterfly",
        quoted: calls_one_two_one(11000, 920),
        buffers: for_verticals(0, 0, 0),
        prices: &[(Side::Buy, Price::AtMarket)],
    }
}

fn unequally_spaced() -> Row {
    Row {
        title: "Butterfly with its strikes unequally spaced",
        quoted: calls_one_two_one(11100, 920),
        ..butterfly()
    }
}

fn one_offer_absent() -> Row {
    Row {
        title: "Butterfly with one offer absent",
        quoted: calls_one_two_one(11000, NO_OFFER),
        prices: &[(Side::Buy, Price::AtMarket), (Side::Sell, Price::AtMarket)],
        ..butterfly()
    }
}

pub fn rows() -> [Row; 9] {
    [
        box_spread(),
        vertical(),
        vertical_flipped(),
        vertical_at_a_credit(),
        vertical_of_width_250(),
        all_bought(),
        butterfly(),
        unequally_spaced(),
        one_offer_absent(),
    ]
}
