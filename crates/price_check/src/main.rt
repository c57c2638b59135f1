// The operator's drill before the bell: for each strategy on the sheet, what it is, what it can be worth and what the protections say of its prices.
#![tactic(auto)]

mod print;
mod sheet;
#[cfg(test)]
mod tests;

use print::print_row;
use service::program::finish;
use sheet::rows;
use std::process::ExitCode;
use venues::board::Board;

fn run(rt: &HostRuntime) -> anyhow::Result<()> {
    let mut board = Board::new();
    for row in &rows() {
        print_row(rt, &mut board, row)?;
    }
    Ok(())
}

fn main(rt: HostRuntime) -> ExitCode {
    finish(&rt, "price_check", run(&rt))
}
