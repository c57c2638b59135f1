// What is done with the levels of one side.
ghost use Rattle.std.specs.Prelude.{◌≡◌, ◌≤◌, true, [], if◌then◌else◌, Ok, Err};
ghost use Rattle.std.specs.List.{prefix_len};
ghost use Rattle.market.specs.declared.quote.MarketFault.TheVariants.{NinthLevel};
ghost use Rattle.venues.specs.Depths.{depth_levels};
ghost use Rattle.market.specs.Levels.{take_answer, taken, best_of};
ghost use Rattle.venues.specs.Ordered.{better, ordered};
ghost use Rattle.venues.specs.Sizes.{found_at, ninth, with_size};

use crate::depth::Depth;
use crate::taking::take_level;
use arrayvec::ArrayVec;
use market::quote::{Level, MarketFault, QuoteSide};

impl Depth {
    pub(crate) fn new() -> Self
        ensures { depth_levels result ≡ [] }
    {
        Depth {
            levels: ArrayVec::new(),
        }
    }

    pub(crate) fn first(&self) -> Option<Level>
        ensures { result ≡ best_of (depth_levels self.now) }
    {
        self.levels.first().copied()
    }

    // Takes n contracts from the first level.
    pub(crate) fn take(&mut self, n: u32) -> Result<(), MarketFault>
        ensures answer { result ≡ take_answer (depth_levels self.old) n }
        ensures after { depth_levels self.new ≡ taken (depth_levels self.old) n }
    {
        match take_level(self.first(), n)? {
            Some(rest) => self.levels[0] = rest,
            None => {
                self.levels.remove(0);
            }
        }
        Ok(())
    }

    // How many levels are better than a price.
    fn place(&self, side: QuoteSide, price: u16) -> usize
        ensures { result ≡ prefix_len (λ l. better side l.price price) (depth_levels self.now) }
    {
        self.levels
            .iter()
            .take_while(|level| is_better(side, level.price, price))
            .count()
    }

    // The place of a price, or the place at which it would stand.
    fn find(&self, side: QuoteSide, price: u16) -> Result<usize, usize>
        ensures { result ≡ found_at side price (depth_levels self.now) }
    {
        let place = self.place(side, price);
        match self.levels.get(place) {
            Some(level) if level.price == price => Ok(place),
            _ => Err(place),
        }
    }

    // Sets the size at a price; with size 0, the price leaves.
    pub(crate) fn set(&mut self, side: QuoteSide, level: Level) -> Result<(), MarketFault>
        requires { ordered side (depth_levels self.old) ≡ true }
        ensures answer { result ≡ (if ninth level.price level.size (depth_levels self.old) then Err NinthLevel else Ok tt) }
        ensures after { depth_levels self.new ≡ (if ninth level.price level.size (depth_levels self.old) then depth_levels self.old else with_size side level.price level.size (depth_levels self.old)) }
    {
        match self.find(side, level.price) {
            Ok(i) if level.size == 0 => {
                self.levels.remove(i);
            }
            Ok(i) => self.levels[i] = level,
            Err(_) if level.size == 0 => {}
            Err(_) if self.levels.is_full() => return Err(MarketFault::NinthLevel),
            Err(i) => self.levels.insert(i, level),
        }
        Ok(())
    }
}

fn is_better(side: QuoteSide, a: u16, b: u16) -> bool
    ensures { result ≡ better side a b }
{
    match side {
        QuoteSide::Bid => a > b,
        QuoteSide::Offer => a < b,
    }
}
