// The gate over the ladder: lines from standard input, answers to standard output.
#![tactic(auto)]

use service::program::finish;
use session::program::answer_lines;
use std::process::ExitCode;
use venues::ladder::Ladder;

fn main(rt: HostRuntime) -> ExitCode {
    let done = answer_lines(rt.alloc(), Ladder::new(), rt.stdin(), rt.stdout());
    finish(&rt, "gate-depth", done)
}
