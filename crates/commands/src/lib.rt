// The commands that lines stand for.
#![tactic(auto)]

pub mod command;
mod fields;
mod forms;
mod legs;
pub mod line;
mod words;
