// Listing series, and looking up those of an order's legs.
ghost use Rattle.std.specs.Prelude.{◌≡◌, []};
ghost use Rattle.strategy.specs.Few.{listed};
ghost use Rattle.orders.specs.Checks.{map_ok};
ghost use Rattle.listing.specs.Tables.{table};
ghost use Rattle.listing.specs.Listing.{listing_answer, listing_after};
ghost use Rattle.listing.specs.Resolving.{other_underlying, listed_leg, listed_legs, resolving};

use super::SeriesTable;
use arrayvec::ArrayVec;
use market::leg::TradedLeg;
use orders::fault::GateFault;
use strategy::leg::{Leg, Series};
use strategy::legs::Legs;

// The first leg, from 1, whose underlying differs from that of leg 1.
fn differing(legs: &Legs<Leg>) -> Option<u8>
    ensures { result ≡ other_underlying (listed legs.now) }
{
    let first = legs.as_slice()[0].series.underlying;
    legs.place_where(|leg| leg.series.underlying != first)
}

impl SeriesTable {
    pub fn new() -> Self
        ensures { table result ≡ [] }
    {
        SeriesTable {
            series: ArrayVec::new(),
        }
    }

    // Lists a series, and answers its number.
    pub fn add(&mut self, series: Series) -> Result<u16, GateFault>
        ensures answer { result ≡ listing_answer (table self.old) series }
        ensures after { table self.new ≡ listing_after (table self.old) series }
    {
        if self.series.is_full() {
            return Err(GateFault::TableFull);
        }
        if self.series.contains(&series) {
            return Err(GateFault::AlreadyListed);
        }
        // under 256
        let number = self.series.len() as u16;
        self.series.push(series);
        Ok(number)
    }

    // A leg as an option of its series, if that is listed.
    fn option(&self, leg: TradedLeg) -> Option<Leg>
        ensures { result ≡ listed_leg (table self.now) leg }
    {
        self.series.get(usize::from(leg.series)).map(|series| Leg {
            side: leg.side,
            ratio: leg.ratio,
            series: *series,
        })
    }

    fn options(&self, legs: &Legs<TradedLeg>) -> Result<Legs<Leg>, GateFault>
        ensures { map_ok listed result ≡ listed_legs (table self.now) (listed legs.now) }
    {
        legs.try_map(|place, leg| self.option(leg).ok_or(GateFault::NotListed(place)))
    }

    // The legs as options of their series, in the order that they have.
    pub fn resolve(&self, legs: &Legs<TradedLeg>) -> Result<Legs<Leg>, GateFault>
        ensures { map_ok listed result ≡ resolving (table self.now) (listed legs.now) }
    {
        let options = self.options(legs)?;
        match differing(&options) {
            Some(place) => Err(GateFault::Underlying(place)),
            None => Ok(options),
        }
    }
}
