// A gate at work: every line of an input is answered.
ghost use Rattle.std.specs.Prelude.{OnOk};
ghost use Rattle.session.specs.Turns.{Turn, Ran};
ghost use Rattle.session.specs.Views.{view};

use crate::session::Session;
use crate::venue::Venue;
use days::tape::TapeLine;
use fills::fill::LegFill;
use gate_calls::gate::{Gate, MOST_LINES, MOST_NOTICES};
use line_writer::line::CAPACITY;
use service::answerer::{Answerer, serve};
use std::alloc::Global;
use std::io;
use std::io::{Read, Write};
use strategy::class::Class;
use strategy::leg::Side;
use strategy::legs::Legs;
use strategy::price::Buffers;

// What stands in the tape's memory before its first line: no class, side or legs are blank by themselves.
const NO_LINE: TapeLine = TapeLine {
    order: 0,
    class: Class::Other,
    side: Side::Buy,
    units: 0,
    net: 0,
    notice: 0,
    legs: Legs::Two([LegFill {
        series: 0,
        ratio: 0,
        price: 0,
    }; 2]),
};

// A session, and the area for its answers.
#[derive(Drop)]
struct Desk<'a, V> {
    session: Session<'a, V>,
    area: [u8; CAPACITY],
}

impl<'a, V: Venue> Answerer for Desk<'a, V> {
    ghost becomes = { λ s line t. Turn (view V.Venue s.session) line (view V.Venue t.session) };

    fn answer<W: Write>(&mut self, line: &[u8], out: &mut W) -> io::Result<()> {
        let area = &mut self.area;
        // The area is never too small.
        let Ok(n) = self.session.answer(line, area) else {
            unreachable()
        };
        out.write_all(&area[0..n])?;
        out.write_all(b"\n")
    }
}

// Answers every line of the input, from the start of a day on. All memory is allocated before the first line is read.
pub fn run<V: Venue + Drop, R: Read + Drop, W: Write>(
    heap: Global,
    venue: V,
    input: R,
    out: &mut W,
) -> io::Result<()>
    ensures { OnOk result (Ran (V.Market.levels venue)) }
{
    let mut tape = vec![in heap; NO_LINE; MOST_LINES]?;
    let mut notices = vec![in heap; Buffers::default(); MOST_NOTICES]?;
    let gate = Gate::new(tape.as_mut_slice(), notices.as_mut_slice());
    let mut desk = Desk {
        session: Session::new(gate, venue),
        area: [0; CAPACITY],
    };
    serve(&mut desk, input, out)
}
