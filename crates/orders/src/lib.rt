// Orders as a caller hands them in, and as the gate keeps them.
#![tactic(auto)]

pub mod bell;
mod checks;
mod conditions;
pub mod fault;
pub mod legs;
pub mod order;
pub mod outcome;
pub mod phase;
pub mod quantity;
mod ranges;
pub mod records;
pub mod turned;
