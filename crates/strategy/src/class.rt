// The class of a strategy, from its legs in any order.
ghost use Rattle.std.specs.Prelude.{◌≡◌, [], ◌∷◌, Decides};
ghost use Rattle.strategy.specs.Few.{listed};
ghost use Rattle.strategy.specs.Forms.{vertical, calendar, butterfly, box, IsBought, IsVertical, IsCalendar, IsButterfly, IsBox, Finds, Formed, Classified, class_name};

use crate::any_order::are_reordered;
use crate::leg::{Kind, Leg, Series, Side};
use crate::legs::{Legs, flipped_legs};
use crate::word::Word;

#[derive(Clone, Copy)]
pub enum Class {
    Bought,
    Vertical,
    Calendar,
    Butterfly,
    BoxSpread,
    Other,
}

impl Word for Class {
    ghost name = { class_name };

    fn word(self) -> &'static str {
        match self {
            Class::Bought => "bought",
            Class::Vertical => "vertical",
            Class::Calendar => "calendar",
            Class::Butterfly => "butterfly",
            Class::BoxSpread => "box",
            Class::Other => "other",
        }
    }
}

// A long form. Neighbouring strikes are `width` cents apart; 0 where the class has no width, and then nothing reads it.
#[derive(Clone, Copy)]
pub struct Form {
    pub class: Class,
    pub width: u32,
}

// What an order's legs are: a long form, perhaps only after every leg is flipped, or of class other. Class and width stand side by side,
// since a class goes out without its width.
#[derive(Clone, Copy)]
pub struct Strategy {
    pub class: Class,
    pub width: u32,
    pub turned: bool,
}

// The legs of a long vertical.
fn vertical(like: Series, low: u32, high: u32) -> [Leg; 2]
    ensures { result ≡ vertical like.underlying like.kind low high like.expiry }
{
    let (bought, sold) = match like.kind {
        Kind::Call => (low, high),
        Kind::Put => (high, low),
    };
    [
        Leg::new(Side::Buy, 1, like.option(like.kind, bought)),
        Leg::new(Side::Sell, 1, like.option(like.kind, sold)),
    ]
}

// The legs of a long calendar.
fn calendar(like: Series, near: u16, later: u16) -> [Leg; 2]
    ensures { result ≡ calendar like.underlying like.kind like.strike near later }
{
    [
        Leg::new(Side::Buy, 1, like.dated(later)),
        Leg::new(Side::Sell, 1, like.dated(near)),
    ]
}

// The legs of a long butterfly.
fn butterfly(like: Series, low: u32, middle: u32, high: u32) -> [Leg; 3]
    ensures { result ≡ butterfly like.underlying like.kind low middle high like.expiry }
{
    [
        Leg::new(Side::Buy, 1, like.option(like.kind, low)),
        Leg::new(Side::Sell, 2, like.option(like.kind, middle)),
        Leg::new(Side::Buy, 1, like.option(like.kind, high)),
    ]
}

// The legs of a long box.
fn box_spread(like: Series, low: u32, high: u32) -> [Leg; 4]
    ensures { result ≡ box like.underlying low high like.expiry }
{
    [
        Leg::new(Side::Buy, 1, like.option(Kind::Call, low)),
        Leg::new(Side::Sell, 1, like.option(Kind::Put, low)),
        Leg::new(Side::Sell, 1, like.option(Kind::Call, high)),
        Leg::new(Side::Buy, 1, like.option(Kind::Put, high)),
    ]
}

// The width of a long vertical.
fn vertical_width(a: Leg, b: Leg) -> Option<u32>
    ensures { Finds result (λ w. IsVertical w (a ∷ b ∷ [])) }
{
    let low = a.series.strike.min(b.series.strike);
    let high = a.series.strike.max(b.series.strike);
    let form = vertical(a.series, low, high);
    // an `if`, here and below: the condition is long, and the width only then one
    if low < high && are_reordered(&[a, b], &form) {
        Some(high - low)
    } else {
        None
    }
}

// Whether the legs are a long calendar.
fn is_calendar(a: Leg, b: Leg) -> bool
    ensures { Decides result (IsCalendar 0 (a ∷ b ∷ [])) }
{
    let near = a.series.expiry.min(b.series.expiry);
    let later = a.series.expiry.max(b.series.expiry);
    let form = calendar(a.series, near, later);
    near < later && are_reordered(&[a, b], &form)
}

// The width of a long butterfly.
fn butterfly_width(a: Leg, b: Leg, c: Leg) -> Option<u32>
    ensures { Finds result (λ w. IsButterfly w (a ∷ b ∷ c ∷ [])) }
{
    let low = a.series.strike.min(b.series.strike).min(c.series.strike);
    let high = a.series.strike.max(b.series.strike).max(c.series.strike);
    let width = (high - low) / 2;
    let middle = low + width;
    let form = butterfly(a.series, low, middle, high);
    if 0 < width && middle + width == high && are_reordered(&[a, b, c], &form) {
        Some(width)
    } else {
        None
    }
}

// The width of a long box.
fn box_width(a: Leg, b: Leg, c: Leg, d: Leg) -> Option<u32>
    ensures { Finds result (λ w. IsBox w (a ∷ b ∷ c ∷ d ∷ [])) }
{
    let (sa, sb) = (a.series.strike, b.series.strike);
    let (sc, sd) = (c.series.strike, d.series.strike);
    let low = sa.min(sb).min(sc).min(sd);
    let high = sa.max(sb).max(sc).max(sd);
    let form = box_spread(a.series, low, high);
    if low < high && are_reordered(&[a, b, c, d], &form) {
        Some(high - low)
    } else {
        None
    }
}

// Two legs, three and four: each number has forms of its own.
fn two_legs(a: Leg, b: Leg) -> Option<Form>
    requires { IsBought 0 (a ∷ b ∷ []) → ⊥ }
    ensures { Formed (a ∷ b ∷ []) result }
{
    if let Some(width) = vertical_width(a, b) {
        return Some(Form {
            class: Class::Vertical,
            width,
        });
    }
    is_calendar(a, b).then_some(Form {
        class: Class::Calendar,
        width: 0,
    })
}

fn three_legs(a: Leg, b: Leg, c: Leg) -> Option<Form>
    requires { IsBought 0 (a ∷ b ∷ c ∷ []) → ⊥ }
    ensures { Formed (a ∷ b ∷ c ∷ []) result }
{
    butterfly_width(a, b, c).map(|width| Form {
        class: Class::Butterfly,
        width,
    })
}

fn four_legs(a: Leg, b: Leg, c: Leg, d: Leg) -> Option<Form>
    requires { IsBought 0 (a ∷ b ∷ c ∷ d ∷ []) → ⊥ }
    ensures { Formed (a ∷ b ∷ c ∷ d ∷ []) result }
{
    box_width(a, b, c, d).map(|width| Form {
        class: Class::BoxSpread,
        width,
    })
}

// Whether there are legs, and every one of them is bought.
fn all_bought(legs: &[Leg]) -> bool
    ensures { Decides result (IsBought 0 legs.now) }
{
    !legs.is_empty() && legs.iter().all(|leg| leg.side == Side::Buy)
}

// The long form that the legs are.
fn long_form(legs: &[Leg]) -> Option<Form>
    ensures { Formed legs.now result }
{
    if all_bought(legs) {
        return Some(Form {
            class: Class::Bought,
            width: 0,
        });
    }
    match legs {
        [a, b] => two_legs(*a, *b),
        [a, b, c] => three_legs(*a, *b, *c),
        [a, b, c, d] => four_legs(*a, *b, *c, *d),
        _ => None,
    }
}

impl Strategy {
    // The strategy that legs in any order are.
    pub fn of(legs: &Legs<Leg>) -> Strategy
        ensures classified { Classified (listed legs.now) result }
        ensures only { (s : Strategy) → Classified (listed legs.now) s → s ≡ result }
    {
        if let Some(Form { class, width }) = long_form(legs.as_slice()) {
            Strategy {
                class,
                width,
                turned: false,
            }
        } else if let Some(Form { class, width }) = long_form(flipped_legs(legs).as_slice()) {
            Strategy {
                class,
                width,
                turned: true,
            }
        } else {
            Strategy {
                class: Class::Other,
                width: 0,
                turned: false,
            }
        }
    }
}
