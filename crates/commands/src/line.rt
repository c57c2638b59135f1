// A line, from its bytes to the command.
ghost use Rattle.std.specs.Prelude.{◌≡◌, ℕ, List, take};
ghost use Rattle.commands.specs.Understood.{Answered, OnlyAnswer};

use crate::command::{Command, Feed};
use crate::forms::read_command;
use lines::cursor::Cursor;
use lines::fault::LineFault;

// The command that the line is, or why it is refused. The first 513 bytes of a line draw the answer of the whole line.
pub fn read_line(line: &[u8], feed: Feed) -> Result<Command, LineFault>
    ensures answer { Answered feed line.now result }
    ensures only { OnlyAnswer feed line.now result }
    ensures cut { (whole : List ℕ) → line.now ≡ take 513 whole → Answered feed whole result }
{
    let mut from = Cursor::open(line)?;
    read_command(&mut from)
        .filter(|command| feed.takes(command))
        .ok_or(LineFault::Unknown)
}
