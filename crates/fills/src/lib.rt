// What an order in turned terms gets from a market, and its execution there.
#![tactic(auto)]

pub mod execution;
pub mod fill;
pub mod quotation;
