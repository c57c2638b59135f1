// A day at the gate: what is asked and answered, what goes to the tape, and the laws that every day keeps.
#![tactic(auto)]

pub mod call;
pub mod reply;
pub mod tape;
