// Writing answers.
ghost use Rattle.std.specs.Prelude.{◌≡◌, ◌≤◌, [], map, length, pos, MatchResult};
ghost use Rattle.std.specs.List.{AllByRecursion};
ghost use Rattle.lines.specs.Forms.{word, number};
ghost use Rattle.line_writer.specs.Areas.{Written, TooSmall};
ghost use Rattle.line_writer.specs.Lines.{held, Starts, atom, render};
ghost use Rattle.answers.specs.Said.{refusal, said, side, Short};

use super::Answer;
use line_writer::line::{Field, Line};
use lines::fault::LineFault;
use orders::fault::Layer;
use strategy::word::Word;

// A form with these fields, on an empty line. With up to six of them it is no longer than a line.
fn form(line: &mut Line, head: &str, fields: &[Field])
    requires empty { Starts (held line.old) [] }
    requires head { length head.now ≤ 9 }
    requires few { length fields.now ≤ 6 }
    requires short { AllByRecursion Short (map atom fields.now) }
    ensures text { held line.new ≡ render head.now (map atom fields.now) }
    ensures short { length (render head.now (map atom fields.now)) ≤ 160 }
{
    line.put(head, fields);
}

#[tactic(auto, using(crate::proofs::Lengths::short_count))]
// This and `cents` are no `From`, which would stand with `Field` and could not promise a short text.
fn count(n: u64) -> Field<'static>
    ensures is { atom result ≡ number (pos n) }
    ensures short { Short (atom result) }
{
    Field::Count(n)
}

#[tactic(auto, using(crate::proofs::Lengths::short_number))]
fn cents(n: i64) -> Field<'static>
    ensures is { atom result ≡ number n }
    ensures short { Short (atom result) }
{
    Field::Number(n)
}

fn name<W: Word>(value: W) -> Field<'static>
    ensures is { atom result ≡ word (W.name value) }
    ensures short { Short (atom result) }
{
    Field::Word(value.word())
}

fn price(value: Option<i64>) -> Field<'static>
    ensures is { atom result ≡ side value }
    ensures short { Short (atom result) }
{
    value.map_or(Field::Word("none"), cents)
}

// How a fault of the line layer is answered.
impl From<LineFault> for Answer {
    ghost from_gives = { λ fault answer. answer ≡ refusal fault };

    fn from(fault: LineFault) -> Self {
        Answer::Refused {
            number: u32::from(fault.number()),
            layer: Layer::Line,
            // std has no `From` of a usize
            place: fault.place() as u64,
        }
    }
}

impl Answer {
    // The answer's text, on an empty line: there, so that no line is moved.
    fn write_on(self, line: &mut Line)
        requires { Starts (held line.old) [] }
        ensures text { held line.new ≡ said self }
        ensures short { length (said self) ≤ 160 }
    {
        match self {
            Answer::Series(n) => form(line, "series", &[count(u64::from(n))]),
            Answer::Notice(n) => form(line, "notice", &[count(u64::from(n))]),
            Answer::Quote(series) => form(line, "quote", &[count(u64::from(series))]),
            Answer::Level(series) => form(line, "level", &[count(u64::from(series))]),
            Answer::Order { number, class } => {
                form(line, "order", &[count(u64::from(number)), name(class)])
            }
            Answer::Phase { bell, units } => form(line, "phase", &[name(bell), count(units)]),
            Answer::Cancel(units) => form(line, "cancel", &[count(units)]),
            Answer::Work { units, net } => form(line, "work", &[count(units), cents(net)]),
            Answer::Sweep {
                lines,
                units,
                outcome,
            } => form(
                line,
                "sweep",
                &[count(u64::from(lines)), count(units), name(outcome)],
            ),
            Answer::Net { bid, offer } => form(line, "net", &[price(bid), price(offer)]),
            Answer::Refused {
                number,
                layer,
                place,
            } => form(
                line,
                "refused",
                &[count(u64::from(number)), name(layer), count(place)],
            ),
        }
    }

    // The answer's text. None is longer than a line.
    pub fn line(self) -> Line
        ensures text { held result ≡ said self }
        ensures short { length (said self) ≤ 160 }
    {
        let mut line = Line::new();
        self.write_on(&mut line);
        line
    }

    // Writes the answer to the start of the area, and answers how many bytes it has.
    pub fn write(self, area: &mut [u8]) -> Result<usize, LineFault>
        ensures { MatchResult result (λ n. Written (said self) area.old area.new n) (λ e. TooSmall e area.old area.new) }
    {
        let mut line = Line::new();
        self.write_on(&mut line);
        line.copy_to(area)
    }
}
