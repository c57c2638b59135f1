// Two markets: the board, with one level a side, and the ladder, with up to eight.
#![tactic(auto)]

pub mod board;
mod depth;
pub mod ladder;
mod reading;
mod series;
mod taking;
