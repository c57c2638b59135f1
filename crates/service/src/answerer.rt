// What answers lines, and the loop that hands it every line of an input.
ghost use Rattle.std.specs.Prelude.{ℕ, List, IfOk, OnOk};
ghost use Rattle.input.specs.Buffers.{line, waiting};
ghost use Rattle.input.specs.Sources.{Reads};
ghost use Rattle.service.specs.Served.{Served};

use input::source::LineSource;
use std::io;
use std::io::{ErrorKind, Read, Write};

pub trait Answerer {
    // what a line makes of it
    ghost becomes: { Self → List ℕ → Self → Type 0 };

    // Writes the answer to a line, and a line break.
    fn answer<W: Write>(&mut self, line: &[u8], out: &mut W) -> io::Result<()>
        ensures { becomes self.old line.now self.new };
}

// Gets the next line. Whatever was answered is written before that line is waited for. The line itself isn't handed out: no contract could then
// say what the source becomes.
fn next_line<R: Read, W: Write>(source: &mut LineSource<R>, out: &mut W) -> io::Result<bool>
    ensures { IfOk result (λ some. Reads some (waiting source.old.held) (line source.new.held) (waiting source.new.held)) }
{
    if source.take_line() {
        return Ok(true);
    }
    out.flush()?;
    source.read_line()
}

// Answers every line of the input.
pub fn serve<T: Answerer, R: Read + Drop, W: Write>(
    answerer: &mut T,
    input: R,
    out: &mut W,
) -> io::Result<()>
    ensures { OnOk result (Served T.becomes answerer.old answerer.new) }
{
    let mut source = LineSource::new(input);
    // an input need not end, but every loop must
    for _ in 0..u64::MAX {
        if !next_line(&mut source, out)? {
            return Ok(());
        }
        answerer.answer(source.line(), out)?;
    }
    Err(io::Error::new(ErrorKind::TimedOut, "gave up after 2^64 lines"))
}
