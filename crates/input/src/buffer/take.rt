// Taking lines out of what came in.
ghost use Rattle.std.specs.Prelude.{◌≡◌, [], length, take, MatchOption, nat_lt};
ghost use Rattle.input.specs.Breaks.{NoBreak, BreakAt};
ghost use Rattle.input.specs.Buffers.{line, waiting, Takes};

use super::{CAPACITY, KEPT, LineBuffer};
use memchr::memchr;

// Where the first line break stands.
fn break_at(bytes: &[u8]) -> Option<usize>
    ensures { MatchOption result (NoBreak bytes.now) (λ n. BreakAt bytes.now n) }
{
    memchr(b'\n', bytes)
}

impl LineBuffer {
    pub(crate) fn new() -> Self
        ensures line { line result ≡ [] }
        ensures waiting { waiting result ≡ [] }
    {
        LineBuffer {
            bytes: [0; CAPACITY],
            taken: 0..0,
            ahead: 0..0,
        }
    }

    // The line that was taken last, or the first 513 bytes of a longer one.
    pub(crate) fn line(&self) -> &[u8]
        ensures { result.now ≡ line self.now }
    {
        &self.bytes[self.taken.start..self.taken.end]
    }

    pub(super) fn waiting(&self) -> &[u8]
        ensures { result.now ≡ waiting self.now }
    {
        &self.bytes[self.ahead.start..self.ahead.end]
    }

    // Takes the next line, where all of it is here. A `bool`, and the line by `line`: no contract can say what a source becomes that
    // lends its line inside an `Option`.
    pub(crate) fn take_line(&mut self) -> bool
        ensures { Takes self.old self.new result }
    {
        let Some(n) = break_at(self.waiting()) else {
            return false;
        };
        let from = self.ahead.start;
        self.taken = from..from + n.min(KEPT);
        self.ahead.start += n + 1;
        true
    }

    // At the end of the input: takes what is left as the last line, where anything is. The line by `line`, as there.
    pub(crate) fn take_rest(&mut self) -> bool
        ensures some { result ≡ nat_lt 0 (length (waiting self.old)) }
        ensures line { line self.new ≡ take 513 (waiting self.old) }
        ensures waiting { waiting self.new ≡ [] }
    {
        let from = self.ahead.start;
        let n = self.waiting().len();
        self.taken = from..from + n.min(KEPT);
        self.ahead.start = self.ahead.end;
        n > 0
    }
}
