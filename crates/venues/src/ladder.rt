// The ladder: 16 series with up to eight levels a side.
ghost use Rattle.std.specs.Prelude.{◌≡◌, length};

use crate::series::SeriesDepth;

const SERIES: usize = 16;

// Fixed memory: the series is the place.
#[derive(Drop)]
pub struct Ladder {
    // by number, in fixed memory
    series: [SeriesDepth; 16],
    ghost size: { length series ≡ 16 },
}

mod methods;
