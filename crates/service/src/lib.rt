// Answering lines, each one before the next is waited for, and how a program ends.
#![tactic(auto)]

pub mod answerer;
pub mod program;
