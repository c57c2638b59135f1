// Lines of any length from an input, in a fixed amount of memory.
#![tactic(auto)]

mod buffer;
pub mod source;
