// The operator's check of a file of lines: for each line its form again, or why it is refused.
#![tactic(auto)]

ghost use Rattle.std.specs.Prelude.{◌≡◌};

use answers::answer::Answer;
use commands::command::Feed;
use commands::line::read_line;
use service::answerer::{Answerer, serve};
use service::program::finish;
use std::io;
use std::io::{BufWriter, Write};
use std::process::ExitCode;

#[derive(Drop)]
struct Checker;

// A form is written in one way only, so that the line itself is its text.
impl Answerer for Checker {
    ghost becomes = { λ before _ after. after ≡ before };

    fn answer<W: Write>(&mut self, line: &[u8], out: &mut W) -> io::Result<()> {
        match read_line(line, Feed::EVERY) {
            Ok(_) => out.write_all(line)?,
            Err(fault) => out.write_all(Answer::from(fault).line().as_bytes())?,
        }
        out.write_all(b"\n")
    }
}

fn check_lines(rt: &HostRuntime) -> io::Result<()> {
    let mut out = BufWriter::new(rt.alloc(), rt.stdout())?;
    serve(&mut Checker, rt.stdin(), &mut out)
}

fn main(rt: HostRuntime) -> ExitCode {
    finish(&rt, "form_check", check_lines(&rt))
}
