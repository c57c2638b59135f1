// The reader: one token of a form at a time, with nothing allocated.
ghost use Rattle.std.specs.Prelude.{◌≡◌, ℕ, ◌+◌, ◌-◌, ◌^◌, ◌<◌, ◌≤◌, true, false, List, [], ◌∷◌, length, take, IsUtf8, MatchOption, ◌≢◌, slice_index};
ghost use Rattle.lines.specs.Cursors.{left, Opens, Only};
ghost use Rattle.lines.specs.Lexing.{ink, inked, atom_of, with_digit, magnitude, numeral, left_from};
ghost use Rattle.lines.specs.Tokens.{lexeme};

use crate::fault::LineFault;
use crate::scan::scan;

// the longest line that is read
pub const LONGEST: usize = 512;

#[derive(Clone, Copy)]
pub enum Token<'a> {
    // a part of the line, with the column of its first byte, from 1
    Word { text: &'a str, column: usize },
    Number(i32),
    Open,
    Close,
}

// A place in a form. (What is left as a slice costs the gate as much as above.)
#[derive(Clone, Copy)]
pub struct Cursor<'a> {
    // the line without its last byte, the form's closing bracket
    line: &'a [u8],
    at: usize,
}

// The first place from `at` on that holds no space. (A loop: with slices and `take_while` the gate takes over 2 % more a line.)
fn skip_spaces(line: &[u8], at: usize) -> usize
    ensures left { left_from line.now at ≡ left_from line.now result }
    ensures stop { result < length line.now → slice_index line.now result ≢ 32 }
{
    let mut at = at;
    while at < line.len() && line[at] == b' ' {
        at += 1;
    }
    at
}

// Where the word or number that begins at `start` ends. (A loop, as `skip_spaces`.)
fn atom_end(line: &[u8], start: usize) -> usize
    requires { start ≤ length line.now }
    ensures low { start ≤ result }
    ensures high { result ≤ length line.now }
    ensures inside { (k : ℕ) → start ≤ k → k < result → ink (slice_index line.now k) ≡ true }
    ensures stops { result < length line.now → ink (slice_index line.now result) ≡ false }
{
    let mut end = start;
    while end < line.len() && is_ink(line[end]) {
        end += 1;
    }
    end
}

// Whether the byte can stand in a word or a number.
fn is_ink(b: u8) -> bool
    ensures { result ≡ ink b }
{
    matches!(b, 45..=127)
}

// The number with one more digit. Past nine digits, which no form has, it stays as it is.
fn with_digit(n: u32, b: u8) -> u32
    ensures { result ≡ with_digit n b }
{
    if n < 100_000_000 {
        n * 10 + u32::from(b % 16)
    } else {
        n
    }
}

fn digits_value(digits: &[u8]) -> u32
    ensures value { result ≡ magnitude 0 digits.now }
    ensures small { result < 2 ^ 30 }
{
    digits.iter().fold(0, |n, b| with_digit(n, *b))
}

// The number that the text writes.
fn number(text: &[u8]) -> i32
    ensures { result ≡ numeral text.now }
{
    match text {
        [b'-', digits @ ..] => -(digits_value(digits) as i32),
        digits => digits_value(digits) as i32,
    }
}

// The word or the number that the bytes write. They are ASCII, so that no check of the text runs.
fn atom<'a>(bytes: &'a [u8], column: usize) -> Token<'a>
    requires some { 0 < length bytes.now }
    requires text { IsUtf8 bytes.now }
    ensures { lexeme result ≡ atom_of column bytes.now }
{
    if bytes[0].is_ascii_lowercase() {
        let text = unsafe { std::str::from_utf8_unchecked(bytes) };
        Token::Word { text, column }
    } else {
        Token::Number(number(bytes))
    }
}

impl<'a> Cursor<'a> {
    // A cursor at the first token of the line, or why the line is refused. The first 513 bytes of a
    // line draw the answer of the whole line.
    pub fn open(line: &'a [u8]) -> Result<Cursor<'a>, LineFault>
        ensures answer { Opens line.now result }
        ensures only { Only line.now result }
        ensures cut { (whole : List ℕ) → line.now ≡ take 513 whole → Opens whole result }
    {
        if line.len() > LONGEST {
            return Err(LineFault::TooLong);
        }
        scan(line).map_err(LineFault::Broken)?;
        Ok(Cursor {
            line: &line[..line.len() - 1],
            at: 1,
        })
    }

    // The next token, where there is one. (No Iterator: a cursor is copied to look ahead, which an
    // iterator should not be.)
    pub fn next(&mut self) -> Option<Token<'a>>
        ensures { MatchOption result (left self.old ≡ []) (λ t. left self.old ≡ lexeme t ∷ left self.new) }
    {
        let line = self.line;
        let start = skip_spaces(line, self.at);
        if start >= line.len() {
            return None;
        }
        match line[start] {
            b'(' => {
                self.at = start + 1;
                Some(Token::Open)
            }
            b')' => {
                self.at = start + 1;
                Some(Token::Close)
            }
            _ => {
                let end = atom_end(line, start);
                if end == start {
                    return None;
                }
                self.at = end;
                Some(atom(&line[start..end], start + 1))
            }
        }
    }
}
