// A gate as a program.
ghost use Rattle.std.specs.Prelude.{OnOk};
ghost use Rattle.session.specs.Turns.{Ran};

use crate::desk::run;
use crate::venue::Venue;
use std::alloc::Global;
use std::io;
use std::io::{BufWriter, Read, Write};

// Answers every line of the input, from the start of a day on. Answers are written together, where the input doesn't wait for them.
pub fn answer_lines<V: Venue + Drop, R: Read + Drop, W: Write + Drop>(
    heap: Global,
    venue: V,
    input: R,
    output: W,
) -> io::Result<()>
    ensures { OnOk result (Ran (V.Market.levels venue)) }
{
    let mut out = BufWriter::new(heap, output)?;
    run(heap, venue, input, &mut out)
}
