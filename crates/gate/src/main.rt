// The gate over the board: lines from standard input, answers to standard output.
#![tactic(auto)]

use service::program::finish;
use session::program::answer_lines;
use std::process::ExitCode;
use venues::board::Board;

fn main(rt: HostRuntime) -> ExitCode {
    let done = answer_lines(rt.alloc(), Board::new(), rt.stdin(), rt.stdout());
    finish(&rt, "gate", done)
}
