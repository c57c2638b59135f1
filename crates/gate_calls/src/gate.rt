// The gate: the phase of the day, the series listed, the orders that rest, and the lent lists of the tape and of the notices.
use book::book::Book;
use days::tape::TapeLine;
use lent::list::GrowList;
use listing::table::SeriesTable;
use orders::phase::Phase;
use strategy::price::Buffers;

pub mod calls;
mod entry;
mod setup;
mod trading;

// The most tape lines that are kept.
pub const MOST_LINES: usize = 4096;

// The most notices.
pub const MOST_NOTICES: usize = 64;

// At most 4,096 tape lines and 64 notices are kept, fewer where the memory is shorter.
// It has no Model: its state gives the order of a number by a function, and a function cannot be a view's value.
#[derive(Drop)]
pub struct Gate<'a> {
    phase: Phase,
    table: SeriesTable,
    book: Book,
    tape: GrowList<'a, TapeLine>,
    notices: GrowList<'a, Buffers>,
}
