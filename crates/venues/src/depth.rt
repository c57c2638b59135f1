// Up to eight levels of one side of a series, the best first.
use arrayvec::ArrayVec;
use market::quote::Level;

#[derive(Drop)]
pub struct Depth {
    levels: ArrayVec<Level, 8>,
}

mod methods;
