// Filling the buffer.
ghost use Rattle.std.specs.Prelude.{◌≡◌, ◌+◌, ◌≤◌, [], length, take, IfOk, MatchResult};
ghost use Rattle.input.specs.Buffers.{line, waiting, Receives};

use super::{CAPACITY, KEPT, LineBuffer};
use std::io;
use std::io::Read;

// Reads into the bytes from `at` on, and answers how many came.
fn read_behind<R: Read>(input: &mut R, bytes: &mut [u8; CAPACITY], at: usize) -> io::Result<usize>
    requires { at ≤ 16384 }
    ensures front { take at bytes.new ≡ take at bytes.old }
    ensures len { length bytes.new ≡ 16384 }
    ensures room { IfOk result (λ n. at + n ≤ 16384) }
{
    input.read(&mut bytes[at..])
}

impl LineBuffer {
    // Moves what waits to the front. Of more than 513 bytes only the first 513 stay.
    fn make_room(&mut self)
        ensures line { line self.new ≡ [] }
        ensures waiting { waiting self.new ≡ take 513 (waiting self.old) }
        ensures front { self.new.ahead.start ≡ 0 }
    {
        let from = self.ahead.start;
        let n = self.waiting().len().min(KEPT);
        self.bytes.copy_within(from..from + n, 0);
        self.taken = 0..0;
        self.ahead = 0..n;
    }

    // Takes in what the input has next, and answers how many bytes came: none at its end. To be
    // called where no whole line waits; of an unfinished one the first 513 bytes stay.
    pub(crate) fn receive<R: Read>(&mut self, input: &mut R) -> io::Result<usize>
        ensures { MatchResult result (λ n. Receives (waiting self.old) (waiting self.new) n) (λ _. waiting self.new ≡ take 513 (waiting self.old)) }
    {
        self.make_room();
        let end = self.ahead.end;
        let n = read_behind(input, &mut self.bytes, end)?;
        self.ahead.end = end + n;
        Ok(n)
    }
}
