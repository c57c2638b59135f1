// Handing a line on.
ghost use Rattle.std.specs.Prelude.{◌≡◌, MatchResult};
ghost use Rattle.line_writer.specs.Lines.{held};
ghost use Rattle.line_writer.specs.Areas.{Written, TooSmall};

use super::{CAPACITY, Line};
use lines::fault::LineFault;

impl Line {
    pub fn as_bytes(&self) -> &[u8]
        ensures { result.now ≡ held self.now }
    {
        &self.bytes[..self.len]
    }

    // Copies the line to the start of the area, and answers how many bytes it has. What the area has
    // behind them stays.
    pub fn copy_to(&self, area: &mut [u8]) -> Result<usize, LineFault>
        ensures { MatchResult result (λ n. Written (held self.now) area.old area.new n) (λ e. TooSmall e area.old area.new) }
    {
        if area.len() < CAPACITY {
            return Err(LineFault::ShortArea);
        }
        let text = self.as_bytes();
        area[..text.len()].copy_from_slice(text);
        Ok(text.len())
    }
}
