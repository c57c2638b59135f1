// Why an order or a call of the gate is refused. A fault met lower down is carried whole in the upper one.
ghost use Rattle.std.specs.Prelude.{◌≡◌};
ghost use Rattle.orders.specs.Faults.{layer_name, order_number, order_place, number_of, layer_of, place_of};
ghost use Rattle.orders.specs.declared.fault.GateFault.TheVariants as gate;

use market::quote::MarketFault;
use strategy::word::Word;

// The layer that refuses.
#[derive(Clone, Copy)]
pub enum Layer {
    Line,
    Order,
    Market,
    Gate,
}

impl Word for Layer {
    ghost name = { layer_name };

    fn word(self) -> &'static str {
        match self {
            Layer::Line => "line",
            Layer::Order => "order",
            Layer::Market => "market",
            Layer::Gate => "gate",
        }
    }
}

// Faults of the order layer, with the leg from 1, or 0.
#[derive(Clone, Copy)]
pub enum OrderFault {
    LegCount,
    Range(u8),
    Repeated(u8),
    Ratios,
}

#[derive(Clone, Copy)]
pub enum GateFault {
    Order(OrderFault),
    Market(MarketFault),
    Phase,
    TableFull,
    AlreadyListed,
    NotListed(u8),
    Underlying(u8),
    BoughtBelowMinimum,
    BelowMinimum,
    AboveMaximum,
    BookFull,
    NumbersUsedUp,
    NotResting,
    TapeFull,
    NoMarket(u8),
    Limit,
    Prevented,
    NoticesFull,
}

// By hand, so that a contract knows the variant.
impl From<OrderFault> for GateFault {
    ghost from_gives = { λ e r. r ≡ gate.Order e };

    fn from(fault: OrderFault) -> GateFault {
        GateFault::Order(fault)
    }
}

impl From<MarketFault> for GateFault {
    ghost from_gives = { λ e r. r ≡ gate.Market e };

    fn from(fault: MarketFault) -> GateFault {
        GateFault::Market(fault)
    }
}

impl OrderFault {
    fn number(self) -> u8
        ensures { result ≡ order_number self }
    {
        match self {
            OrderFault::LegCount => 5,
            OrderFault::Range(_) => 6,
            OrderFault::Repeated(_) => 7,
            OrderFault::Ratios => 8,
        }
    }

    fn place(self) -> u8
        ensures { result ≡ order_place self }
    {
        match self {
            OrderFault::Range(place) | OrderFault::Repeated(place) => place,
            OrderFault::LegCount | OrderFault::Ratios => 0,
        }
    }
}

impl GateFault {
    // The number in a refusal, which is one of the gate's stated forms.
    pub fn number(self) -> u8
        ensures { result ≡ number_of self }
    {
        match self {
            GateFault::Order(fault) => fault.number(),
            GateFault::Market(fault) => fault.number(),
            GateFault::Phase => 20,
            GateFault::TableFull => 21,
            GateFault::AlreadyListed => 22,
            GateFault::NotListed(_) => 23,
            GateFault::Underlying(_) => 24,
            GateFault::BoughtBelowMinimum => 25,
            GateFault::BelowMinimum => 26,
            GateFault::AboveMaximum => 27,
            GateFault::BookFull => 28,
            GateFault::NumbersUsedUp => 29,
            GateFault::NotResting => 30,
            GateFault::TapeFull => 31,
            GateFault::NoMarket(_) => 32,
            GateFault::Limit => 33,
            GateFault::Prevented => 34,
            GateFault::NoticesFull => 35,
        }
    }

    pub fn layer(self) -> Layer
        ensures { result ≡ layer_of self }
    {
        match self {
            GateFault::Order(_) => Layer::Order,
            GateFault::Market(_) => Layer::Market,
            _ => Layer::Gate,
        }
    }

    // The leg from 1, or 0, as a refusal says it.
    pub fn place(self) -> u8
        ensures { result ≡ place_of self }
    {
        match self {
            GateFault::Order(fault) => fault.place(),
            GateFault::NotListed(leg) | GateFault::Underlying(leg) | GateFault::NoMarket(leg) =>
                leg,
            _ => 0,
        }
    }
}
