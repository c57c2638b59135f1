// Two to four legs of a strategy, or two to four things that go with them.
ghost use Rattle.std.specs.Prelude.{◌≡◌, ℕ, ◌≤◌, Bool, Result, map, length};
ghost use Rattle.std.specs.Fn.{FnReturnsAt};
ghost use Rattle.std.specs.List.{All, position_from};
ghost use Rattle.strategy.specs.Few.{listed, each_leg, map_ok, try_each, Gives};
ghost use Rattle.strategy.specs.Legs.{flipped};

use crate::leg::Leg;

#[derive(Clone, Copy)]
pub enum Legs<T> {
    Two([T; 2]),
    Three([T; 3]),
    Four([T; 4]),
}

impl<T: Copy> Legs<T> {
    pub fn as_slice(&self) -> &[T]
        ensures value { result.now ≡ listed self.now }
        ensures two { 2 ≤ length result.now }
        ensures four { length result.now ≤ 4 }
    {
        match self {
            Legs::Two(legs) => legs,
            Legs::Three(legs) => legs,
            Legs::Four(legs) => legs,
        }
    }

    // As many, each by `f`. The arms stand here once: an array's own `map` asks more of its caller.
    pub fn map<U, F: Fn(T) -> U>(self, f: F) -> Legs<U>
        requires { All (F.pre f) (listed self) }
        ensures each { (g : T → U) → Gives (F.post f) g → result ≡ each_leg g self }
        ensures listed { (g : T → U) → Gives (F.post f) g → listed result ≡ map g (listed self) }
    {
        match self {
            Legs::Two(legs) => {
                let [a, b] = legs;
                Legs::Two([f(a), f(b)])
            }
            Legs::Three(legs) => {
                let [a, b, c] = legs;
                Legs::Three([f(a), f(b), f(c)])
            }
            Legs::Four(legs) => {
                let [a, b, c, d] = legs;
                Legs::Four([f(a), f(b), f(c), f(d)])
            }
        }
    }

    // As many, each by `f`, which takes a leg's place too, from 1; or the first error. Its arms stand here too: the
    // library's own gives no place.
    pub fn try_map<U: Drop, E, F: Fn(u8, T) -> Result<U, E>>(self, f: F) -> Result<Legs<U>, E>
        requires { (n : ℕ) → 1 ≤ n → n ≤ 4 → All (F.pre f n) (listed self) }
        ensures { (g : ℕ → T → Result U E) → ((n : ℕ) → Gives (F.post f n) (g n)) → map_ok listed result ≡ try_each g 1 (listed self) }
    {
        match self {
            Legs::Two(legs) => {
                let [a, b] = legs;
                Ok(Legs::Two([f(1, a)?, f(2, b)?]))
            }
            Legs::Three(legs) => {
                let [a, b, c] = legs;
                Ok(Legs::Three([f(1, a)?, f(2, b)?, f(3, c)?]))
            }
            Legs::Four(legs) => {
                let [a, b, c, d] = legs;
                Ok(Legs::Four([f(1, a)?, f(2, b)?, f(3, c)?, f(4, d)?]))
            }
        }
    }

    // The place, from 1, of the first leg that passes a test.
    pub fn place_where<F: Fn(&T) -> bool>(&self, test: F) -> Option<u8>
        requires { All (λ leg. (lent : _) → lent.now ≡ leg → F.pre test lent) (listed self.now) }
        ensures { (p : T → Bool) → Gives (FnReturnsAt F.Fn test) p → result ≡ position_from p 1 (listed self.now) }
    {
        let place = self.as_slice().iter().position(test)?;
        // one of at most four
        Some(place as u8 + 1)
    }
}

// The same legs, each on the other side.
pub(crate) fn flipped_legs(legs: &Legs<Leg>) -> Legs<Leg>
    ensures { listed result ≡ map flipped (listed legs.now) }
{
    legs.map(|leg| leg.flipped())
}
