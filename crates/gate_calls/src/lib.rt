// The gate and its calls.
#![tactic(auto)]

pub mod gate;
