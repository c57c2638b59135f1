// Lines from a reader.
ghost use Rattle.std.specs.Prelude.{◌≡◌, [], IfOk};
ghost use Rattle.input.specs.Buffers.{line, waiting, Takes};
ghost use Rattle.input.specs.Sources.{Grows, Reads};

use crate::buffer::LineBuffer;
use std::io;
use std::io::{ErrorKind, Read};

#[derive(Drop)]
pub struct LineSource<R> {
    input: R,
    held: LineBuffer,
}

// The text is this loop's own.
fn gave_up() -> io::Error {
    io::Error::new(ErrorKind::TimedOut, "gave up reading after 2^64 tries")
}

impl<R: Read> LineSource<R> {
    pub fn new(input: R) -> Self
        ensures input { result.input ≡ input }
        ensures line { line result.held ≡ [] }
        ensures waiting { waiting result.held ≡ [] }
    {
        LineSource {
            input,
            held: LineBuffer::new(),
        }
    }

    // The line that was taken or read last, without its line break; of a line over 513 bytes, the
    // first 513. It is asked for by itself, behind the three below: no contract can say what a source becomes that lends its line
    // inside an `Option`, and a loop that hands out a line may not read on.
    pub fn line(&self) -> &[u8]
        ensures { result.now ≡ line self.now.held }
    {
        self.held.line()
    }

    // Takes the next line, where all of it is here: this never waits.
    pub fn take_line(&mut self) -> bool
        ensures takes { Takes self.old.held self.new.held result }
        ensures input { self.new.input ≡ self.old.input }
    {
        self.held.take_line()
    }

    // Takes in more of the input; false at its end. A signal that comes before any input is no error.
    fn receive(&mut self) -> io::Result<bool>
        ensures { IfOk result (λ more. Grows more (waiting self.old.held) (waiting self.new.held)) }
    {
        match self.held.receive(&mut self.input) {
            Ok(n) => Ok(n > 0),
            Err(e) if e.kind() == ErrorKind::Interrupted => Ok(true),
            Err(e) => Err(e),
        }
    }

    // Reads the next line, and waits for it as long as it takes; false at the end of the input. A
    // last line may lack its line break.
    pub fn read_line(&mut self) -> io::Result<bool>
        ensures { IfOk result (λ some. Reads some (waiting self.old.held) (line self.new.held) (waiting self.new.held)) }
    {
        // a reader need not end, but every loop must
        for _ in 0..u64::MAX {
            if self.held.take_line() {
                return Ok(true);
            }
            if !self.receive()? {
                return Ok(self.held.take_rest());
            }
        }
        Err(gave_up())
    }
}
