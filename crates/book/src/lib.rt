// The book of resting orders.
#![tactic(auto)]

pub mod book;
pub mod fault;
pub mod order;
