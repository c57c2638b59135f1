// The same legs in any order.
ghost use Rattle.std.specs.Prelude.{◌≡◌, Decides, count_by};
ghost use Rattle.strategy.specs.Reordering.{Reordered};

use crate::leg::Leg;

fn count(legs: &[Leg], leg: &Leg) -> usize
    ensures { result ≡ count_by (λ x. (⟦<Leg as PartialEq>⟧).eq x leg.now) legs.now }
{
    legs.iter().filter(|other| *other == leg).count()
}

// Whether some legs are others, in any order.
pub(crate) fn are_reordered(these: &[Leg], those: &[Leg]) -> bool
    ensures { Decides result (Reordered these.now those.now) }
{
    these.len() == those.len()
        && these
            .iter()
            .all(|leg| count(these, leg) == count(those, leg))
}
