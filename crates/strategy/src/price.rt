// Minimum and Maximum of a strategy, and what the price protections say of a limit and of an execution price.
ghost use Rattle.std.specs.Prelude.{◌≡◌, ◌≤◌, List, length, sum_by};
ghost use Rattle.strategy.specs.declared.leg.Leg.{Leg};
ghost use Rattle.strategy.specs.Few.{listed};
ghost use Rattle.strategy.specs.Forms.{Long};
ghost use Rattle.strategy.specs.Prices.{refusal_number, maximum_buffer, lowest, highest, lower_end, minimum_of, maximum_of, turned_price, below, above, bounds_refusal, beyond, limit_refusal, prevented_of, LimitLaw, PreventionLaw};
ghost use Rattle.strategy.specs.Verdicts.{Judged, Executed};

use crate::class::{Class, Strategy};
use crate::leg::{Leg, Side};
use crate::legs::Legs;

// The buffers of a class in cents, and a percentage of the width in hundredths of a percent. `absolute` and `percentage` bound the Maximum
// Value Buffer.
#[derive(Clone, Copy, Default)]
pub struct Buffer {
    pub minimum: u16,
    pub absolute: u16,
    pub percentage: u16,
}

// The buffers that a notice carries.
#[derive(Clone, Copy, Default)]
pub struct Buffers {
    pub vertical: Buffer,
    pub butterfly: Buffer,
    pub boxes: Buffer,
}

// Why a limit is refused.
#[derive(Clone, Copy)]
pub enum Refusal {
    BoughtBelowMinimum,
    BelowMinimum,
    AboveMaximum,
}

impl Refusal {
    // The number in a refusal, which is one of the gate's stated forms.
    pub fn number(self) -> u8
        ensures { result ≡ refusal_number self }
    {
        match self {
            Refusal::BoughtBelowMinimum => 25,
            Refusal::BelowMinimum => 26,
            Refusal::AboveMaximum => 27,
        }
    }
}

impl Buffer {
    // The Maximum Value Buffer at a width.
    fn above(self, width: u32) -> u32
        ensures { result ≡ maximum_buffer self width }
    {
        let share = u64::from(width) * u64::from(self.percentage) / 10000;
        // at most `absolute`
        share.min(u64::from(self.absolute)) as u32
    }

    fn lowest(self) -> i64
        ensures { result ≡ lowest self }
    {
        -i64::from(self.minimum)
    }

    fn highest(self, width: u32) -> i64
        ensures { result ≡ highest self width }
    {
        i64::from(width) + i64::from(self.above(width))
    }
}

fn ratio_sum(legs: &[Leg]) -> u32
    requires { length legs.now ≤ 4 }
    ensures { result ≡ sum_by (λ l. l.ratio) legs.now }
{
    legs.iter().map(|leg| u32::from(leg.ratio)).sum()
}

// Whether a price is below the Minimum, where there is one.
fn below(price: i64, least: Option<i64>) -> bool
    ensures { result ≡ below price least }
{
    least.is_some_and(|least| price < least)
}

// Whether a price is above the Maximum, where there is one. One function with `below` would have to be told which way to look.
fn above(price: i64, most: Option<i64>) -> bool
    ensures { result ≡ above price most }
{
    most.is_some_and(|most| most < price)
}

// The refusal of a limit by its bounds, in turned terms.
fn bounds_refusal(
    class: Class,
    side: Side,
    limit: i64,
    least: Option<i64>,
    most: Option<i64>,
) -> Option<Refusal>
    ensures { result ≡ bounds_refusal class side limit least most }
{
    match (class, side) {
        (Class::Bought, Side::Buy) if below(limit, least) => Some(Refusal::BoughtBelowMinimum),
        (Class::Bought, _) => None,
        _ if below(limit, least) => Some(Refusal::BelowMinimum),
        _ if above(limit, most) => Some(Refusal::AboveMaximum),
        _ => None,
    }
}

// Whether a buy is above the upper bound, or a sell below the lower.
fn beyond(side: Side, price: i64, least: Option<i64>, most: Option<i64>) -> bool
    ensures { result ≡ beyond side price least most }
{
    match side {
        Side::Buy => above(price, most),
        Side::Sell => below(price, least),
    }
}

impl Strategy {
    // The Minimum of every class but all bought.
    fn lower_end(self, buffers: Buffers) -> Option<i64>
        ensures { result ≡ lower_end self.class buffers }
    {
        match self.class {
            Class::Vertical | Class::Calendar => Some(buffers.vertical.lowest()),
            Class::Butterfly => Some(buffers.butterfly.lowest()),
            Class::BoxSpread => Some(buffers.boxes.lowest()),
            Class::Bought | Class::Other => None,
        }
    }

    pub fn minimum(self, legs: &Legs<Leg>, buffers: Buffers) -> Option<i64>
        ensures { result ≡ minimum_of self.class (listed legs.now) buffers }
    {
        match self.class {
            Class::Bought => Some(i64::from(ratio_sum(legs.as_slice()))),
            _ => self.lower_end(buffers),
        }
    }

    pub fn maximum(self, buffers: Buffers) -> Option<i64>
        ensures { result ≡ maximum_of self.class self.width buffers }
    {
        match self.class {
            Class::Vertical => Some(buffers.vertical.highest(self.width)),
            Class::Butterfly => Some(buffers.butterfly.highest(self.width)),
            Class::BoxSpread => Some(buffers.boxes.highest(self.width)),
            Class::Bought | Class::Calendar | Class::Other => None,
        }
    }

    // The refusal of a limit, in turned terms. The legs may be turned or not.
    pub fn limit_refusal(
        self,
        legs: &Legs<Leg>,
        side: Side,
        limit: i64,
        buffers: Buffers,
    ) -> Option<Refusal>
        ensures decided { result ≡ limit_refusal self.class self.width (listed legs.now) side limit buffers }
        ensures law { (turned : List Leg) → Long self.class self.width turned → LimitLaw self.class self.width turned limit buffers result }
    {
        let least = self.minimum(legs, buffers);
        bounds_refusal(self.class, side, limit, least, self.maximum(buffers))
    }

    // Whether an execution at a net price is prevented, in turned terms: the net offer of a buy, the net bid of a sell.
    pub fn is_prevented(self, side: Side, price: i64, buffers: Buffers) -> bool
        ensures decided { result ≡ prevented_of self.class self.width side price buffers }
        ensures law { (turned : List Leg) → Long self.class self.width turned → PreventionLaw self.class self.width turned side price buffers result }
    {
        beyond(side, price, self.lower_end(buffers), self.maximum(buffers))
    }
}

fn turned_price(turned: bool, price: i32) -> i64
    ensures { result ≡ turned_price turned price }
{
    if turned {
        -i64::from(price)
    } else {
        i64::from(price)
    }
}

// What a limit draws: the strategy that the legs are, and the refusal if there is one.
#[derive(Clone, Copy)]
pub struct Judgement {
    pub strategy: Strategy,
    pub refusal: Option<Refusal>,
}

// The check of an order's limit, as entered, against what its legs can be worth.
pub fn check_limit(legs: &Legs<Leg>, side: Side, limit: i32, buffers: Buffers) -> Judgement
    ensures { Judged (listed legs.now) side limit buffers result }
{
    let strategy = Strategy::of(legs);
    let side = side.turned(strategy.turned);
    let limit = turned_price(strategy.turned, limit);
    let refusal = strategy.limit_refusal(legs, side, limit, buffers);
    Judgement { strategy, refusal }
}

// What an execution at a net price draws.
#[derive(Clone, Copy)]
pub struct Execution {
    pub strategy: Strategy,
    pub prevented: bool,
}

// The check of an execution at a net price as entered: the net offer of a buy, the net bid of a sell. Beside `check_limit`: three lines are
// alike, and what is asked and answered is not.
pub fn check_execution(legs: &Legs<Leg>, side: Side, net: i32, buffers: Buffers) -> Execution
    ensures { Executed (listed legs.now) side net buffers result }
{
    let strategy = Strategy::of(legs);
    let side = side.turned(strategy.turned);
    let price = turned_price(strategy.turned, net);
    let prevented = strategy.is_prevented(side, price, buffers);
    Execution {
        strategy,
        prevented,
    }
}
