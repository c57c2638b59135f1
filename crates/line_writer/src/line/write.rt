// Writing a form onto a line.
ghost use Rattle.std.specs.Prelude.{◌≡◌, [], ◌∷◌, map, decimal};
ghost use Rattle.lines.specs.Forms.{atom_text};
ghost use Rattle.line_writer.specs.Lines.{held, Starts, Adds, atom, render};

use super::{CAPACITY, Field, Line};
use itoa::Buffer;

// Where there is no room left, nothing more is written.
impl Line {
    pub fn new() -> Self
        ensures { Starts (held result) [] }
    {
        Line {
            bytes: [0; CAPACITY],
            len: 0,
        }
    }

    fn byte(&mut self, b: u8)
        ensures { Adds (held self.old) (held self.new) (b ∷ []) }
    {
        if self.len < CAPACITY {
            self.bytes[self.len] = b;
            self.len += 1;
        }
    }

    fn text(&mut self, more: &[u8])
        ensures { Adds (held self.old) (held self.new) more.now }
    {
        let n = more.len().min(CAPACITY - self.len);
        let end = self.len + n;
        self.bytes[self.len..end].copy_from_slice(&more[..n]);
        self.len = end;
    }

    // Of one digit, as most numbers of an answer are, it needs no buffer.
    fn count(&mut self, n: u64)
        ensures { Adds (held self.old) (held self.new) (decimal n) }
    {
        if n < 10 {
            self.byte(b'0' + n as u8);
        } else {
            self.text(Buffer::new().format(n).as_bytes());
        }
    }

    // A space and the field.
    fn field(&mut self, field: Field)
        ensures { Adds (held self.old) (held self.new) (32 ∷ atom_text (atom field.entry)) }
    {
        self.byte(b' ');
        match field {
            Field::Word(word) => self.text(word.as_bytes()),
            Field::Count(n) => self.count(n),
            Field::Number(n) => self.text(Buffer::new().format(n).as_bytes()),
        }
    }

    // The form with this head and these fields, behind what the line holds.
    pub fn put(&mut self, head: &str, fields: &[Field])
        ensures { Adds (held self.old) (held self.new) (render head.now (map atom fields.now)) }
    {
        self.byte(b'(');
        self.text(head.as_bytes());
        for field in fields {
            self.field(*field);
        }
        self.byte(b')');
    }

    // The form with this head and these fields. Of more than 160 bytes, the first 160.
    pub fn form(head: &str, fields: &[Field]) -> Self
        ensures { Starts (held result) (render head.now (map atom fields.now)) }
    {
        let mut line = Line::new();
        line.put(head, fields);
        line
    }
}
