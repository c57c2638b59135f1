// The conditions on legs whose numbers are in range.
ghost use Rattle.std.specs.Prelude.{◌≡◌, ◌<◌, ◌≤◌, [], map, length};
ghost use Rattle.orders.specs.Orders.{names, repeated, above_thrice, uneven, divides_all, reducible};

use market::leg::TradedLeg;

fn names(legs: &[TradedLeg], series: u8) -> bool
    ensures { result ≡ names series (map (λ g. g.series) legs.now) }
{
    legs.iter()
        .map(|leg| leg.series)
        .any(|other| other == series)
}

// The first leg, from 1, whose series an earlier one names.
pub(crate) fn repeated(legs: &[TradedLeg]) -> Option<u8>
    requires { length legs.now ≤ 4 }
    ensures { result ≡ repeated [] 1 (map (λ g. g.series) legs.now) }
{
    (0..legs.len())
        .find(|i| names(&legs[..*i], legs[*i].series))
        .map(|i| i as u8 + 1)
}

// Whether a ratio is above three times that of some leg.
fn above_thrice(ratio: u8, legs: &[TradedLeg]) -> bool
    ensures { result ≡ above_thrice ratio (map (λ g. g.ratio) legs.now) }
{
    legs.iter()
        .map(|leg| leg.ratio)
        .any(|other| 3 * u16::from(other) < u16::from(ratio))
}

pub(crate) fn uneven(legs: &[TradedLeg]) -> bool
    ensures { result ≡ uneven (map (λ g. g.ratio) legs.now) }
{
    legs.iter()
        .map(|leg| leg.ratio)
        .any(|ratio| above_thrice(ratio, legs))
}

fn divides_all(divisor: u8, legs: &[TradedLeg]) -> bool
    requires { 0 < divisor }
    ensures { result ≡ divides_all divisor (map (λ g. g.ratio) legs.now) }
{
    legs.iter()
        .map(|leg| leg.ratio)
        .all(|ratio| ratio % divisor == 0)
}

// Whether a number above 1 divides all ratios, which are at most 12.
pub(crate) fn reducible(legs: &[TradedLeg]) -> bool
    ensures { result ≡ reducible (map (λ g. g.ratio) legs.now) }
{
    (2..13).any(|divisor| divides_all(divisor, legs))
}
