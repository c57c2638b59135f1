// What came in and was not yet handed on, and the line that was handed on last.
ghost use Rattle.std.specs.Prelude.{◌≤◌};

use std::ops::Range;

// how many bytes of a line are kept: one more than the longest line that is read has, so that a
// longer one is still seen to be so
const KEPT: usize = 513;

const CAPACITY: usize = 16384;

// Fixed memory, so that a source of lines can be made without fail.
#[derive(Drop)]
pub(crate) struct LineBuffer {
    bytes: [u8; CAPACITY],
    // where the line stands
    taken: Range<usize>,
    // where what waits stands
    ahead: Range<usize>,
    ghost taken_ordered: { taken.start ≤ taken.end },
    ghost taken_inside: { taken.end ≤ 16384 },
    ghost ahead_ordered: { ahead.start ≤ ahead.end },
    ghost ahead_inside: { ahead.end ≤ 16384 },
}

mod fill;
mod take;
