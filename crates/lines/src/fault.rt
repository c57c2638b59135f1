// What the line layer refuses.
ghost use Rattle.std.specs.Prelude.{◌≡◌};
ghost use Rattle.lines.specs.Faults.{layer, number, place};

#[derive(Clone, Copy)]
pub enum LineFault {
    // the area for the answer is under 160 bytes
    ShortArea,
    // the line is over 512 bytes
    TooLong,
    // no form has this column's byte after those before it, or the line ends too early
    Broken(usize),
    // the line is a form, but none that is known
    Unknown,
}

impl LineFault {
    // The fault's number in an answer, which is one of the gate's stated forms.
    pub fn number(self) -> u8
        ensures { result ≡ number self }
    {
        match self {
            LineFault::ShortArea => 1,
            LineFault::TooLong => 2,
            LineFault::Broken(_) => 3,
            LineFault::Unknown => 4,
        }
    }

    pub fn layer(self) -> &'static str
        ensures { result.now ≡ layer self }
    {
        "line"
    }

    // A column of the line, or 0 where no line is at fault, as a refusal says it.
    pub fn place(self) -> usize
        ensures { result ≡ place self }
    {
        match self {
            LineFault::ShortArea => 0,
            LineFault::TooLong => 513,
            LineFault::Broken(column) => column,
            LineFault::Unknown => 1,
        }
    }
}
