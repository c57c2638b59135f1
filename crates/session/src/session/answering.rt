// Answering lines.
ghost use Rattle.std.specs.Prelude.{◌≡◌, MatchResult};
ghost use Rattle.line_writer.specs.Areas.{TooSmall};
ghost use Rattle.gate_calls.specs.Model.{state};
ghost use Rattle.gate_calls.specs.Promises.{netting};
ghost use Rattle.session.specs.Answering.{told, answer_of, net_answer, Makes, Updates, Obeys, Does, Answers};
ghost use Rattle.session.specs.Days.{HandsOn};
ghost use Rattle.session.specs.Views.{view};

use super::Session;
use crate::fault::SessionFault;
use crate::venue::Venue;
use answers::answer::Answer;
use commands::command::{Command, Feed};
use commands::line::read_line;
use days::call::Call;
use days::reply::Reply;
use gate_calls::gate::Gate;
use line_writer::line::CAPACITY;
use lines::fault::LineFault;
use orders::records::LegList;

// A reply of the gate, as an answer says it.
fn answer_of(reply: Reply) -> Answer
    ensures { result ≡ answer_of reply }
{
    match reply {
        Reply::Series(number) => Answer::Series(u32::from(number)),
        Reply::Notice(number) => Answer::Notice(u32::from(number)),
        Reply::Phase(bell, units) => Answer::Phase {
            bell,
            units: u64::from(units),
        },
        Reply::Order(acceptance) => Answer::Order {
            number: u32::from(acceptance.number),
            class: acceptance.class,
        },
        Reply::Cancel(units) => Answer::Cancel(u64::from(units)),
        Reply::Work(execution) => Answer::Work {
            units: u64::from(execution.units),
            net: i64::from(execution.net),
        },
        Reply::Sweep(tally) => Answer::Sweep {
            lines: u32::from(tally.lines),
            units: u64::from(tally.units),
            outcome: tally.outcome,
        },
    }
}

// A refusal is an answer like any other.
fn final_answer(outcome: Result<Answer, SessionFault>) -> Answer
    ensures { result ≡ told outcome }
{
    outcome.unwrap_or_else(Answer::from)
}

impl<'a, V: Venue> Session<'a, V> {
    pub fn new(gate: Gate<'a>, venue: V) -> Self
        ensures gate { state result.gate ≡ state gate.entry }
        ensures venue { result.venue ≡ venue }
    {
        Session { gate, venue }
    }

    // One of the seven calls.
    fn call(&mut self, call: Call) -> Result<Answer, SessionFault>
        ensures makes { Makes call (view V.Venue self.old) (told result) (view V.Venue self.new) }
        ensures law { HandsOn (view V.Venue self.old) (view V.Venue self.new) }
    {
        let reply = self.gate.apply(call, &mut self.venue)?;
        Ok(answer_of(reply))
    }

    // A line of the market.
    fn update(&mut self, command: Command) -> Result<Answer, SessionFault>
        ensures { Updates command (view V.Venue self.old) (told result) (view V.Venue self.new) }
    {
        let answer = self.venue.update(command).ok_or(LineFault::Unknown)?;
        Ok(answer?)
    }

    fn net(&self, legs: LegList) -> Result<Answer, SessionFault>
        ensures { told result ≡ net_answer (netting (state self.now.gate) legs (V.Market.levels self.now.venue)) }
    {
        let net = self.gate.net(legs, &self.venue)?;
        Ok(Answer::Net {
            bid: net.bid.map(i64::from),
            offer: net.offer.map(i64::from),
        })
    }

    // A command and a call are two types, so that each call is named here once.
    fn obey(&mut self, command: Command) -> Result<Answer, SessionFault>
        ensures obeys { Obeys command (view V.Venue self.old) (told result) (view V.Venue self.new) }
        ensures law { HandsOn (view V.Venue self.old) (view V.Venue self.new) }
    {
        match command {
            Command::Series(terms) => self.call(Call::Series(terms)),
            Command::Notice(terms) => self.call(Call::Notice(terms)),
            Command::Enter(terms) => self.call(Call::Enter(terms)),
            Command::Phase(bell) => self.call(Call::Phase(bell)),
            Command::Cancel(number) => self.call(Call::Cancel(number)),
            Command::Work(number) => self.call(Call::Work(number)),
            Command::Sweep => self.call(Call::Sweep),
            Command::Quote(_) | Command::Level(_) => self.update(command),
            Command::Net(legs) => self.net(legs),
        }
    }

    fn respond(&mut self, line: &[u8]) -> Result<Answer, SessionFault>
        ensures does { Does (view V.Venue self.old) line.now (told result) (view V.Venue self.new) }
        ensures law { HandsOn (view V.Venue self.old) (view V.Venue self.new) }
    {
        let command = read_line(line, Feed::EVERY)?;
        self.obey(command)
    }

    // Answers a line in the area that the caller lends: the answer's bytes from its start on, and every other byte as it was. An area under
    // 160 bytes is refused, and nothing is done.
    pub fn answer(&mut self, line: &[u8], area: &mut [u8]) -> Result<usize, LineFault>
        ensures answer { MatchResult result (λ n. Answers (view V.Venue self.old) line.now area.old area.new n (view V.Venue self.new)) (λ e. TooSmall e area.old area.new × (self.new ≡ self.old)) }
        ensures law { HandsOn (view V.Venue self.old) (view V.Venue self.new) }
    {
        if area.len() < CAPACITY {
            return Err(LineFault::ShortArea);
        }
        final_answer(self.respond(line)).write(area)
    }
}
