// Up to 256 series, numbered from 0 in the order in which they were listed.
ghost use Rattle.std.specs.Prelude.{◌≡◌};

use arrayvec::ArrayVec;
use strategy::leg::Series;

#[derive(Drop)]
pub struct SeriesTable {
    series: ArrayVec<Series, 256>,
}

mod methods;
